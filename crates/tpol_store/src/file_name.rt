//! The names of documents on the shelf.

ghost use Rattle.std.specs.Prelude.{◌≡◌, IfOk, map, option_map};
ghost use Rattle.std.specs.List.{filter_map};
ghost use Rattle.std.specs.String.{string_bytes};
ghost use Rattle.tpol_store.specs.FileNames.{file_name, policy_name, sorted_names, without_ending};

use std::alloc::Global;
use tpol_base::{NoMemory, Text, is_policy_name};

/// The name on the shelf of the policy of this name.
pub fn file_name(alloc: Global, name: &str) -> Result<Text, NoMemory>
    ensures { IfOk result (λ file. file ≡ file_name name.now) }
{
    let mut file = Text::from_str(alloc, name)?;
    file.push_str(".json")?;
    Ok(file)
}

/// The names of policies that are listed, without `.json`, in ascending byte order, each once.
pub fn document_names(alloc: Global, listed: &[Text]) -> Result<Vec<String>, NoMemory>
    ensures { IfOk result (λ names. map string_bytes names.items
        ≡ sorted_names (filter_map policy_name listed.now)) }
{
    let mut names = policy_names(alloc, listed)?;
    names.sort()?;
    names.dedup();
    Ok(names)
}

fn policy_names(alloc: Global, listed: &[Text]) -> Result<Vec<String>, NoMemory>
    ensures { IfOk result (λ names. map string_bytes names.items
        ≡ filter_map policy_name listed.now) }
{
    let mut names = Vec::new(alloc);
    for file in listed {
        if let Some(name) = policy_name(file.as_str()) {
            names.push(String::from_str(alloc, name)?)?;
        }
    }
    Ok(names)
}

// The name of the policy whose name on the shelf this is.
fn policy_name(file: &str) -> Option<&str>
    ensures { option_map (λ name. name.now) result ≡ policy_name file.now }
{
    let name = without_ending(file)?;
    if is_policy_name(name) {
        Some(name)
    } else {
        None
    }
}

#[tactic(auto, using(crate::proofs::Endings::stripped))]
fn without_ending(file: &str) -> Option<&str>
    ensures { option_map (λ name. name.now) result ≡ without_ending file.now }
{
    file.strip_suffix(".json")
}
