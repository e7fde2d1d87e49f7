ghost use Rattle.std.specs.Prelude.{◌≡◌, [], drop, map, IfOk, IfErr, string_bytes};

use json_tree::Name;
use std::alloc::{AllocError, Global};
use std::env::Args;
use std::io;

/// The words behind the program's name, which is the first of its arguments. An argument that isn't UTF-8 is no word of
/// the grammar: then there are no words, and they are outside it.
pub fn words_of(alloc: Global, arguments: io::Result<Args>) -> Result<Vec<Name>, AllocError>
    ensures words { IfOk arguments (λ all. IfOk result (λ words.
        words.items ≡ map string_bytes (drop 1 all.rest.items))) }
    ensures none { IfErr arguments (λ _. IfOk result (λ words. words.items ≡ [])) }
{
    let mut words = Vec::new(alloc);
    let mut all = match arguments {
        Ok(all) => all,
        Err(fault) if fault.kind() == io::ErrorKind::OutOfMemory => return Err(AllocError),
        Err(_) => return Ok(words),
    };
    let _name = all.next();
    for word in all {
        words.push(Name::new(word))?;
    }
    Ok(words)
}
