ghost use Rattle.std.specs.Prelude.{◌≡◌, map, IfOk};
ghost use Rattle.std.specs.String.{string_bytes};
ghost use Rattle.tpol_bridge.specs.Words.{digests_request, four_word_request, one_word_request, request_of, scene_stem, steps_request, steps_scene_request, three_word_request, two_word_request};

use std::alloc::Global;
use tpol_base::{NoMemory, Text, is_policy_name, without_folder};
use tpol_front::number_of_word;

/// What the words ask for.
#[derive(Drop)]
pub enum Request {
    /// `adopt`: the canonical text of the policy that the export in the source says.
    Adopt,
    /// `export`: the text of that policy in FAPI's spelling.
    Export,
    /// `export --differences`: its elements after which FAPI 3.2.1 has another digest.
    Differences,
    /// `digests`, `digests --scene NAME`: the digest after each of its elements, filled with a scene of the shelf.
    Digests { scene: Option<Text> },
    /// `steps P`, `steps P --scene NAME`: the policy commands of the path at a position, from 1, with the digest after
    /// each; documents of the shelf are approved.
    Steps { position: u32, scene: Option<Text> },
    /// `who`: which paths each run can go that the scene in the source begins, and what blocks the others.
    Who,
}

/// The command that the words are, or `None` where they are none. It fails only where memory ran out.
pub fn request_of_words(alloc: Global, words: &Vec<String>) -> Result<Option<Request>, NoMemory>
    ensures { IfOk result (λ request. request ≡ request_of (map string_bytes words.now.items)) }
{
    match words.as_slice() {
        [word] => Ok(one_word_request(word.as_str())),
        [word, second] => Ok(two_word_request(word.as_str(), second.as_str())),
        [word, option, name] => {
            three_word_request(alloc, word.as_str(), option.as_str(), name.as_str())
        }
        [word, position, option, name] => four_word_request(
            alloc,
            word.as_str(),
            position.as_str(),
            option.as_str(),
            name.as_str(),
        ),
        [] => Ok(None),
        [_, _, _, _, _, ..] => Ok(None),
    }
}

fn one_word_request(word: &str) -> Option<Request>
    ensures { result ≡ one_word_request word.now }
{
    if word == "adopt" {
        return Some(Request::Adopt);
    }
    if word == "digests" {
        return Some(Request::Digests { scene: None });
    }
    if word == "export" {
        return Some(Request::Export);
    }
    if word == "who" {
        return Some(Request::Who);
    }
    None
}

fn three_word_request(
    alloc: Global,
    word: &str,
    option: &str,
    name: &str,
) -> Result<Option<Request>, NoMemory>
    ensures { IfOk result (λ request. request ≡ three_word_request word.now option.now name.now) }
{
    if word == "digests" && option == "--scene" {
        return digests_request(alloc, name);
    }
    Ok(None)
}

// The command `digests` with a scene.
fn digests_request(alloc: Global, name: &str) -> Result<Option<Request>, NoMemory>
    ensures { IfOk result (λ request. request ≡ digests_request (scene_stem name.now)) }
{
    let stem = without_folder(name);
    if is_policy_name(stem) {
        let scene = Some(Text::from_str(alloc, stem)?);
        return Ok(Some(Request::Digests { scene }));
    }
    Ok(None)
}

fn two_word_request(word: &str, second: &str) -> Option<Request>
    ensures { result ≡ two_word_request word.now second.now }
{
    if word == "steps" {
        return steps_request(None, number_of_word(second));
    }
    if word == "export" && second == "--differences" {
        return Some(Request::Differences);
    }
    None
}

fn four_word_request(
    alloc: Global,
    word: &str,
    position: &str,
    option: &str,
    name: &str,
) -> Result<Option<Request>, NoMemory>
    ensures { IfOk result (λ request. request
        ≡ four_word_request word.now position.now option.now name.now) }
{
    if word == "steps" && option == "--scene" {
        return steps_scene_request(alloc, name, number_of_word(position));
    }
    Ok(None)
}

// The command `steps` with a scene.
fn steps_scene_request(
    alloc: Global,
    name: &str,
    position: Option<u32>,
) -> Result<Option<Request>, NoMemory>
    ensures { IfOk result (λ request. request
        ≡ steps_scene_request (scene_stem name.now) position) }
{
    let stem = without_folder(name);
    if is_policy_name(stem) {
        let scene = Some(Text::from_str(alloc, stem)?);
        return Ok(steps_request(scene, position));
    }
    Ok(None)
}

// The command `steps` of the path of a number.
fn steps_request(scene: Option<Text>, position: Option<u32>) -> Option<Request>
    ensures { result ≡ steps_request scene position }
{
    position.map(|position| Request::Steps { position, scene })
}
