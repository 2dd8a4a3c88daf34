ghost use Rattle.std.specs.Prelude.{◌≡◌, map, IfOk};
ghost use Rattle.std.specs.String.{string_bytes};
ghost use Rattle.tpol_top.specs.Words.{check_request, explain_request, four_word_request, generation, request_of, name_request, one_word_request, policy_stem, run_request, scene_request, three_word_request, two_word_request};

use std::alloc::Global;
use tpol_base::{NoMemory, Text, is_policy_name, without_folder};
use tpol_front::number_of_word;
use tpol_prepare::{Manner, Way};

/// What the words ask for.
#[derive(Drop)]
pub enum Request {
    /// `compile`, `compile --scene NAME`: the digest of the policy document in the source, filled with a
    /// scene of the shelf.
    Compile { scene: Option<Text> },
    /// `paths`, `paths --scene NAME`: the ways through it, and its digest.
    Paths { scene: Option<Text> },
    /// `lint`, `lint --scene NAME`: those of its ways that can never open.
    Lint { scene: Option<Text> },
    /// `canon`: its canonical text.
    Canon,
    /// `import NAME`: puts its canonical text on the shelf, as the document of this name.
    Import { name: Text },
    /// `check NAME`, `check NAME --scene SCENE`: whether the source certifies a path of the shelf's policy of this name,
    /// filled with a scene of the shelf.
    Check { name: Text, scene: Option<Text> },
    /// `run`, `run --blind`, `run --tickets`, `explain`, `explain --blind`, `explain --tickets`, `explain --cert`: carries
    /// out the scene in the source, in this manner.
    Perform { manner: Manner },
    /// `gen N M`: a run of a policy of N ORs (1 to 12), whose branches stand in an order by the bits of M.
    Generate { ors: u8, order: u32 },
}

/// The command that the words are, or `None` where they are none. It fails only where memory ran out.
pub fn request_of_words(alloc: Global, words: &Vec<String>) -> Result<Option<Request>, NoMemory>
    ensures { IfOk result (λ request. request ≡ request_of (map string_bytes words.now.items)) }
{
    match words.as_slice() {
        [word] => Ok(one_word_request(word.as_str())),
        [word, second, third] => {
            three_word_request(alloc, word.as_str(), second.as_str(), third.as_str())
        }
        [word, second] => two_word_request(alloc, word.as_str(), second.as_str()),
        [word, name, option, scene] => four_word_request(
            alloc,
            word.as_str(),
            name.as_str(),
            option.as_str(),
            scene.as_str(),
        ),
        [] => Ok(None),
        [_, _, _, _, _, ..] => Ok(None),
    }
}

fn one_word_request(word: &str) -> Option<Request>
    ensures { result ≡ one_word_request word.now }
{
    if word == "compile" {
        return Some(Request::Compile { scene: None });
    }
    if word == "paths" {
        return Some(Request::Paths { scene: None });
    }
    if word == "lint" {
        return Some(Request::Lint { scene: None });
    }
    if word == "canon" {
        return Some(Request::Canon);
    }
    if word == "run" {
        return Some(Request::Perform {
            manner: Manner::Run(Way::Sighted),
        });
    }
    if word == "explain" {
        return Some(Request::Perform {
            manner: Manner::Explain(Way::Sighted),
        });
    }
    None
}

fn two_word_request(alloc: Global, word: &str, second: &str) -> Result<Option<Request>, NoMemory>
    ensures { IfOk result (λ request. request ≡ two_word_request word.now second.now) }
{
    if word == "run" {
        return Ok(run_request(second));
    }
    if word == "explain" {
        return Ok(explain_request(second));
    }
    name_request(alloc, word, second)
}

// How `run` drives. The option is taken as it is: it is the name of a policy too.
fn run_request(option: &str) -> Option<Request>
    ensures { result ≡ run_request option.now }
{
    if option == "--blind" {
        return Some(Request::Perform {
            manner: Manner::Run(Way::Blind),
        });
    }
    if option == "--tickets" {
        return Some(Request::Perform {
            manner: Manner::Run(Way::WithTickets),
        });
    }
    None
}

// How `explain` drives, or what it tells besides; at most one of them.
fn explain_request(option: &str) -> Option<Request>
    ensures { result ≡ explain_request option.now }
{
    if option == "--cert" {
        return Some(Request::Perform {
            manner: Manner::Certify,
        });
    }
    if option == "--blind" {
        return Some(Request::Perform {
            manner: Manner::Explain(Way::Blind),
        });
    }
    if option == "--tickets" {
        return Some(Request::Perform {
            manner: Manner::Explain(Way::WithTickets),
        });
    }
    None
}

fn name_request(alloc: Global, word: &str, name: &str) -> Result<Option<Request>, NoMemory>
    ensures { IfOk result (λ request. request ≡ name_request word.now name.now) }
{
    let Some(name) = policy_stem(alloc, name)? else {
        return Ok(None);
    };
    if word == "import" {
        return Ok(Some(Request::Import { name }));
    }
    if word == "check" {
        return Ok(Some(Request::Check { name, scene: None }));
    }
    Ok(None)
}

fn three_word_request(
    alloc: Global,
    word: &str,
    second: &str,
    third: &str,
) -> Result<Option<Request>, NoMemory>
    ensures { IfOk result (λ request. request ≡ three_word_request word.now second.now third.now) }
{
    if word == "gen" {
        return Ok(generation(number_of_word(second), number_of_word(third)));
    }
    scene_request(alloc, word, second, third)
}

fn generation(ors: Option<u32>, order: Option<u32>) -> Option<Request>
    ensures { result ≡ generation ors order }
{
    let ors = ors?;
    let order = order?;
    if 1 <= ors && ors <= 12 {
        Some(Request::Generate {
            ors: ors as u8,
            order,
        })
    } else {
        None
    }
}

fn scene_request(
    alloc: Global,
    word: &str,
    option: &str,
    name: &str,
) -> Result<Option<Request>, NoMemory>
    ensures { IfOk result (λ request. request ≡ scene_request word.now option.now name.now) }
{
    if option != "--scene" {
        return Ok(None);
    }
    let Some(scene) = policy_stem(alloc, name)? else {
        return Ok(None);
    };
    if word == "compile" {
        return Ok(Some(Request::Compile { scene: Some(scene) }));
    }
    if word == "paths" {
        return Ok(Some(Request::Paths { scene: Some(scene) }));
    }
    if word == "lint" {
        return Ok(Some(Request::Lint { scene: Some(scene) }));
    }
    Ok(None)
}

fn four_word_request(
    alloc: Global,
    word: &str,
    name: &str,
    option: &str,
    scene: &str,
) -> Result<Option<Request>, NoMemory>
    ensures { IfOk result (λ request. request
        ≡ four_word_request word.now name.now option.now scene.now) }
{
    if word == "check" && option == "--scene" {
        return check_request(alloc, name, scene);
    }
    Ok(None)
}

// The command `check` with a scene.
fn check_request(alloc: Global, name: &str, scene: &str) -> Result<Option<Request>, NoMemory>
    ensures { IfOk result (λ request. request
        ≡ check_request (policy_stem name.now) (policy_stem scene.now)) }
{
    let Some(name) = policy_stem(alloc, name)? else {
        return Ok(None);
    };
    let scene = policy_stem(alloc, scene)?;
    if scene.is_none() {
        return Ok(None);
    }
    Ok(Some(Request::Check { name, scene }))
}

// A policy's or a scene's name without `/policy/` in front, or `None` where it is none.
fn policy_stem(alloc: Global, name: &str) -> Result<Option<Text>, NoMemory>
    ensures { IfOk result (λ stem. stem ≡ policy_stem name.now) }
{
    let stem = without_folder(name);
    if is_policy_name(stem) {
        Ok(Some(Text::from_str(alloc, stem)?))
    } else {
        Ok(None)
    }
}
