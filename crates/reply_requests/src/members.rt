//! The members of an object, by their keys. One that is null counts as missing.
ghost use Rattle.std.specs.Prelude.{◌≡◌, ◌⊎◌, IfOk, IfErr, IfNone, IfSome, None, Some, true, codes, map, option_map};
ghost use Rattle.std.specs.Option.{option_copied};
ghost use Rattle.serde_json.specs.View.{view};
ghost use Rattle.reply_requests.specs.Said.{value_at, text_said, number_said};
ghost use Rattle.reply_requests.specs.Asked.{IsFlag, HasOnlyKeysOf, IsAmong, MayHave, is_id, keys_in, text_data, texts_data};
ghost use Rattle.reply_requests.specs.Reasons.{AreNoTexts, IsNoFlag, IsNoList, IsNoNumber, IsNoText, IsReasonOfId, NamesNone};
ghost use Rattle.reply_requests.specs.declared.refusals.Refusal.TheVariants as refusal;

use crate::commands::Command;
use crate::refusals::Refusal;
use serde_json::Value;
use std::alloc::Global;

/// The value of a key, if it is there and is not null.
#[tactic(auto, using(crate::proofs::Nulls::absent, crate::proofs::Nulls::is_null, crate::proofs::Nulls::is_there))]
fn value_in<'a>(object: &'a Value, key: &str) -> Option<&'a Value>
    ensures { option_map (λ v. view v.now) result ≡ value_at key.now (view object.now) }
{
    let value = object.get(key)?;
    if value.is_null() { None } else { Some(value) }
}

/// The id of an object: a text or a number, if there is one.
pub fn id_in<'a>(object: &'a Value) -> Result<Option<&'a Value>, Refusal<'a>>
    ensures value { IfOk result (λ id. option_map (λ v. view v.now) id ≡ value_at (codes "id") (view object.now)) }
    ensures kind { IfOk result (λ id. IfSome id (λ v. is_id (view v.now) ≡ true)) }
    ensures reason { IfErr result (IsReasonOfId (view object.now)) }
{
    match value_in(object, "id") {
        None => Ok(None),
        Some(id) if id.is_string() || id.is_number() => Ok(Some(id)),
        Some(_) => Err(Refusal::NoId),
    }
}

/// The name of the command that an object requests.
pub fn name_in<'a>(object: &'a Value) -> Result<&'a str, Refusal<'a>>
    ensures name { IfOk result (λ name. text_said (codes "do") (view object.now) ≡ Some (Some name.now)) }
    ensures reason { IfErr result (NamesNone (view object.now)) }
{
    if !object.is_object() {
        return Err(Refusal::NoObject);
    }
    match value_in(object, "do") {
        None => Err(Refusal::NoCommand),
        Some(value) => match value.as_str() {
            Some(name) => Ok(name),
            None => Err(Refusal::NoName),
        },
    }
}

/// A key of an object that a request for this command may not have, if there is one.
#[tactic(auto, using(crate::proofs::Keys::no_keys))]
pub fn other_key<'a>(object: &'a Value, command: Command) -> Option<&'a str>
    ensures none { IfNone result (HasOnlyKeysOf command (view object.now)) }
    ensures some { IfSome result (λ key. IsAmong (keys_in (view object.now)) key.now × (MayHave command key.now → ⊥)) }
{
    for key in object.as_object()?.keys() {
        let key = key.as_str();
        if !command.may_have(key) {
            return Some(key);
        }
    }
    None
}

/// A text, if there is one.
pub fn text_in<'a>(object: &'a Value, key: &'static str) -> Result<Option<&'a str>, Refusal<'a>>
    ensures text { IfOk result (λ text. text_said key.now (view object.now) ≡ Some (option_copied text)) }
    ensures reason { IfErr result (IsNoText key.now (view object.now)) }
{
    match value_in(object, key) {
        None => Ok(None),
        Some(value) => match value.as_str() {
            Some(text) => Ok(Some(text)),
            None => Err(Refusal::NoText(key)),
        },
    }
}

/// True or false; `otherwise` if there is no value.
pub fn flag_in<'a>(
    object: &'a Value,
    key: &'static str,
    otherwise: bool,
) -> Result<bool, Refusal<'a>>
    ensures flag { IfOk result (IsFlag key.now otherwise (view object.now)) }
    ensures reason { IfErr result (IsNoFlag key.now (view object.now)) }
{
    match value_in(object, key) {
        None => Ok(otherwise),
        Some(value) => match value.as_bool() {
            Some(flag) => Ok(flag),
            None => Err(Refusal::NoFlag(key)),
        },
    }
}

/// A number between these two, if there is one.
pub fn number_in<'a>(
    object: &'a Value,
    key: &'static str,
    least: u32,
    most: u32,
) -> Result<Option<u32>, Refusal<'a>>
    ensures number { IfOk result (λ number. number_said least most key.now (view object.now) ≡ Some number) }
    ensures reason { IfErr result (IsNoNumber least most key.now (view object.now)) }
{
    let Some(value) = value_in(object, key) else {
        return Ok(None);
    };
    match value.as_u64() {
        Some(number) if least as u64 <= number && number <= most as u64 => Ok(Some(number as u32)),
        _ => Err(Refusal::NoNumber(key, least, most)),
    }
}

/// The texts that values are.
#[tactic(auto, using(crate::proofs::Texts::is_text))]
fn texts_of<'a>(
    alloc: Global,
    values: &'a [Value],
    key: &'static str,
) -> Result<Vec<&'a str>, Refusal<'a>>
    ensures texts { IfOk result (λ texts. map view values.now ≡ map text_data texts.items) }
    ensures reason { IfErr result (λ why. (why ≡ refusal.NoMemory) ⊎ ((why ≡ refusal.NoTexts key.entry) × AreNoTexts (map view values.now))) }
{
    let mut texts = Vec::new(alloc);
    for value in values {
        let Some(text) = value.as_str() else {
            return Err(Refusal::NoTexts(key));
        };
        if texts.push(text).is_err() {
            return Err(Refusal::NoMemory);
        }
    }
    Ok(texts)
}

/// Texts, if there is a list of them.
#[tactic(auto, using(crate::proofs::Texts::are_said))]
pub fn texts_in<'a>(
    alloc: Global,
    object: &'a Value,
    key: &'static str,
) -> Result<Option<Vec<&'a str>>, Refusal<'a>>
    ensures texts { IfOk result (λ texts. value_at key.now (view object.now) ≡ option_map (λ t. texts_data t.items) texts) }
    ensures reason { IfErr result (λ why. (why ≡ refusal.NoMemory) ⊎ IsNoList key.now (view object.now) why) }
{
    let Some(value) = value_in(object, key) else {
        return Ok(None);
    };
    let Some(values) = value.as_array() else {
        return Err(Refusal::NoTexts(key));
    };
    match texts_of(alloc, values.as_slice(), key) {
        Ok(texts) => Ok(Some(texts)),
        Err(why) => Err(why),
    }
}
