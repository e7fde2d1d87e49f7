ghost use Rattle.std.specs.Prelude.{◌≡◌, ◌≤◌, IfOk};
ghost use Rattle.std.specs.Option.{option_and_then, option_copied};
ghost use Rattle.alto_words.specs.Numbers.{number_in};
ghost use Rattle.alto_words.specs.Tasks.{Gives, epoch_in, form_in, id_in, or_usual};

use crate::number::number_in;
use crate::task::WordsFault;
use alto_names::{Epoch, ImportId, NameFault};
use edit_forms::Form;
use json_tree::Name;
use std::alloc::Global;

/// The value as a text.
pub(crate) fn text(alloc: Global, value: Option<&str>) -> Result<Name, WordsFault>
    ensures { Gives (option_copied value.entry) result }
{
    let Some(word) = value else {
        return Err(WordsFault::Outside);
    };
    Ok(Name::from_str(alloc, word)?)
}

/// The value as an epoch.
pub(crate) fn epoch(alloc: Global, value: Option<&str>) -> Result<Epoch, WordsFault>
    ensures { Gives (option_and_then epoch_in (option_copied value.entry)) result }
{
    let Some(word) = value else {
        return Err(WordsFault::Outside);
    };
    match Epoch::read(alloc, word.as_bytes()) {
        Ok(epoch) => Ok(epoch),
        Err(NameFault::Memory) => Err(WordsFault::Memory),
        Err(_) => Err(WordsFault::Outside),
    }
}

/// The value as the id of an import.
pub(crate) fn import_id(alloc: Global, value: Option<&str>) -> Result<ImportId, WordsFault>
    ensures { Gives (option_and_then id_in (option_copied value.entry)) result }
{
    let Some(word) = value else {
        return Err(WordsFault::Outside);
    };
    match ImportId::read(alloc, word.as_bytes()) {
        Ok(id) => Ok(id),
        Err(NameFault::Memory) => Err(WordsFault::Memory),
        Err(_) => Err(WordsFault::Outside),
    }
}

/// The value as a form.
pub(crate) fn form(value: Option<&str>) -> Result<Form, WordsFault>
    ensures { Gives (option_and_then form_in (option_copied value.entry)) result }
{
    match value {
        Some(word) if word == "csv" => Ok(Form::Csv),
        Some(word) if word == "json" => Ok(Form::Json),
        _ => Err(WordsFault::Outside),
    }
}

/// The value as a number from `least` to `most`.
pub(crate) fn number(value: Option<&str>, least: u32, most: u32) -> Result<u32, WordsFault>
    ensures gives { Gives (option_and_then (number_in least most) (option_copied value.entry)) result }
    ensures range { IfOk result (λ number. (least ≤ number) × (number ≤ most)) }
{
    let Some(word) = value else {
        return Err(WordsFault::Outside);
    };
    number_in(word, least, most).ok_or(WordsFault::Outside)
}

/// The same, and `usual` where there is no value.
pub(crate) fn number_or(
    usual: u32,
    value: Option<&str>,
    least: u32,
    most: u32,
) -> Result<u32, WordsFault>
    ensures gives { Gives (or_usual usual (number_in least most) (option_copied value.entry)) result }
    ensures range { least ≤ usual → usual ≤ most → IfOk result (λ number. (least ≤ number) × (number ≤ most)) }
{
    match value {
        Some(_) => number(value, least, most),
        None => Ok(usual),
    }
}
