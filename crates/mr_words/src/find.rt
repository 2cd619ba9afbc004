//! Where the folders stand among the words.
ghost use Rattle.std.specs.Prelude.{◌≡◌, ◌<◌, IfOk, IfSome, IsOkAnd, Some, None, length, map, option_map, string_bytes};
ghost use Rattle.mr_words.specs.Form.{IsRunForm, options_in};

use crate::command::finds_folder;
use crate::form::options_of;
use crate::places::Folders;
use mr_base::Memory;
use std::alloc::Global;

/// The places of the folders, none where the words are in no form.
pub fn folders(alloc: Global, words: &[String]) -> Result<Folders, Memory>
    ensures first { IfOk result (λ f. f.first ≡ option_map (λ o. o.folder) (options_in (map string_bytes words.now))) }
    ensures in_no_form { ¬ IsRunForm (map string_bytes words.now) → IsOkAnd result (λ f. f.first ≡ None) }
    ensures inside { IfOk result (λ f. IfSome f.first (λ place. place < length words.now)) }
    ensures no_second { IfOk result (λ f. f.second ≡ None) }
{
    let mut folders = Folders {
        first: None,
        second: None,
    };
    let Some(options) = options_of(words) else {
        return Ok(folders);
    };
    match finds_folder(alloc, words[options.folder].as_str()) {
        Ok(true) => folders.first = Some(options.folder),
        Ok(false) => {}
        Err(_) => return Err(Memory),
    }
    Ok(folders)
}
