//! Why a configuration was not read, by a second look at its text.

ghost use Rattle.std.specs.Prelude.{◌≡◌, ◌++◌, ◌∷◌, ℕ, List, None, false, true};
ghost use Rattle.turn_config.specs.Lines.{Lines, Sets};
ghost use Rattle.turn_config.specs.Names.{name_of};
ghost use Rattle.turn_config.specs.Reasons.{is_secret, quoted_of};
ghost use Rattle.turn_config.specs.declared.settings.Setting.{Setting};

use crate::lines::{MAX_DENIED, is_skipped};
use crate::settings::{
    Setting, auth_secret_of, limits_of, quota_of, range_of, realm_of, relay_of, secret_of,
    setting_of, user_of,
};
use crate::values::{endpoint, ip, split_once};
use turn_local::MAX_LOCAL_PEERS;

/// How many lines of a setting there may be.
#[derive(Clone, Copy, Debug, PartialEq, Eq)]
pub enum Times {
    /// One.
    Once,
    /// One for each name.
    OnceAName,
    /// So many.
    UpTo(usize),
}

/// Why a line of a configuration is bad. It quotes nothing of a line that has a password or a secret.
#[derive(Clone, Copy, Debug, PartialEq, Eq)]
pub enum BadLineReason<'a> {
    /// The line is no word and a value with a blank between.
    NoValue,
    /// The word names no setting. It is quoted if it can't be a secret.
    UnknownWord(Option<&'a [u8]>),
    /// The value doesn't have the form of the word's values. It is quoted if it isn't empty.
    OtherForm {
        /// The word.
        word: &'static str,
        /// The form of its values.
        form: &'static str,
        /// The value.
        value: Option<&'a [u8]>,
    },
    /// The lines before it are as many as there may be.
    Repeated {
        /// The word.
        word: &'static str,
        /// How many lines there may be.
        times: Times,
    },
    /// No line has this word, which is needed.
    Missing(&'static str),
}

/// What the lines of a setting are like.
#[derive(Clone, Copy)]
struct Row {
    word: &'static str,
    form: &'static str,
    times: Times,
    is_secret: bool,
}

/// A setting whose values may be quoted.
fn open(word: &'static str, form: &'static str, times: Times) -> Row
    ensures { result.is_secret ≡ false }
{
    Row {
        word,
        form,
        times,
        is_secret: false,
    }
}

/// A setting whose values have a password or a secret.
fn secret(word: &'static str, form: &'static str, times: Times) -> Row
    ensures { result.is_secret ≡ true }
{
    Row {
        word,
        form,
        times,
        is_secret: true,
    }
}

/// The form of an address and the first and the last port there.
const ADDRESS_AND_PORTS: &str = "IP LOW HIGH with an IP of one machine and LOW <= HIGH";

/// The table of all settings.
fn row_of(setting: Setting) -> Row
    ensures { result.is_secret ≡ is_secret setting }
{
    match setting {
        Setting::Realm => open("realm", "1 to 127 visible ASCII characters", Times::Once),
        Setting::Secret => secret("secret", "64 hex digits", Times::Once),
        Setting::Listen => open("listen", "IP:PORT", Times::Once),
        Setting::Relay => open("relay", ADDRESS_AND_PORTS, Times::Once),
        Setting::RelayBind => open("relay-bind", "IP", Times::Once),
        Setting::Quota => open("quota", "a number from 1 to 1024", Times::Once),
        Setting::Limits => open(
            "limits",
            "A P C F N from 1 1 1 1 1 to 1024 32 32 64 508",
            Times::Once,
        ),
        Setting::Deny => open("deny", "IP IP in ascending order", Times::UpTo(MAX_DENIED)),
        Setting::Local => open(
            "local-peer",
            ADDRESS_AND_PORTS,
            Times::UpTo(MAX_LOCAL_PEERS),
        ),
        Setting::User => secret("user", "NAME PASSWORD", Times::OnceAName),
        Setting::AuthSecret => {
            secret(
                "auth-secret",
                "16 to 128 visible ASCII characters",
                Times::Once,
            )
        }
    }
}

/// The settings that each configuration has a line of.
const NEEDED: [Setting; 4] = [
    Setting::Realm,
    Setting::Secret,
    Setting::Listen,
    Setting::Relay,
];

/// Whether a value has the form of a setting's values.
fn has_form(setting: Setting, value: &[u8]) -> bool
    ensures { (old : Lines) → (new : Lines) → Sets setting value.now old new → result ≡ true }
{
    match setting {
        Setting::Realm => realm_of(value).is_some(),
        Setting::Secret => secret_of(value).is_some(),
        Setting::Listen => endpoint(value).is_some(),
        Setting::Relay => relay_of(value).is_some(),
        Setting::RelayBind => ip(value).is_some(),
        Setting::Quota => quota_of(value).is_some(),
        Setting::Limits => limits_of(value).is_some(),
        Setting::Deny => range_of(value).is_some(),
        Setting::Local => relay_of(value).is_some(),
        Setting::User => user_of(value).is_some(),
        Setting::AuthSecret => auth_secret_of(value).is_some(),
    }
}

/// Why the line of a setting with a value is bad. What has the right form is refused for the lines before it.
fn value_reason(setting: Setting, value: &[u8]) -> BadLineReason<'_>
    ensures { is_secret setting ≡ true → quoted_of result ≡ None }
{
    let Row {
        word,
        form,
        times,
        is_secret,
    } = row_of(setting);
    if has_form(setting, value) {
        return BadLineReason::Repeated { word, times };
    }
    let is_quoted = !is_secret && !value.is_empty();
    BadLineReason::OtherForm {
        word,
        form,
        value: if is_quoted { Some(value) } else { None },
    }
}

/// How many bytes a word that is quoted may have, fewer than a secret that is shared with a web service.
const MAX_WORD: usize = 15;

/// Whether a word that names no setting may be quoted: it is short, has letters alone, hyphens and underscores, and isn't the word of a
/// secret value that follows it without a blank.
fn is_quotable(word: &[u8]) -> bool {
    word.len() <= MAX_WORD
        && word.iter().all(|byte| byte.is_ascii_alphabetic() || *byte == b'-' || *byte == b'_')
        && !word.starts_with(b"user")
        && !word.starts_with(b"secret")
        && !word.starts_with(b"auth-secret")
}

/// Why a line without a blank is bad, which may be a word alone.
fn word_reason(line: &[u8]) -> BadLineReason<'_>
    ensures { quoted_of result ≡ None }
{
    match setting_of(line) {
        Some(setting) => {
            let Row { word, form, .. } = row_of(setting);
            BadLineReason::OtherForm {
                word,
                form,
                value: None,
            }
        }
        None => BadLineReason::NoValue,
    }
}

/// Why a line is bad that isn't skipped.
fn line_reason(line: &[u8]) -> BadLineReason<'_>
    ensures { (setting : Setting) → (value : List ℕ) → is_secret setting ≡ true → line.now ≡ name_of setting ++ 32 ∷ value
        → quoted_of result ≡ None }
{
    let Some((word, value)) = split_once(line, b' ') else {
        return word_reason(line);
    };
    match setting_of(word) {
        Some(setting) => value_reason(setting, value),
        None if word.is_empty() => BadLineReason::NoValue,
        None => BadLineReason::UnknownWord(if is_quotable(word) { Some(word) } else { None }),
    }
}

/// Whether a line begins with a word and a blank.
fn begins_with(line: &[u8], word: &str) -> bool {
    match split_once(line, b' ') {
        Some((first, _)) => first == word.as_bytes(),
        None => false,
    }
}

/// Whether a configuration has a line of a setting.
fn has_line(text: &[u8], setting: Setting) -> bool {
    let word = row_of(setting).word;
    text.split(|byte| *byte == b'\n')
        .any(|line| begins_with(line, word))
}

/// The first needed setting without a line.
fn missing_of(text: &[u8]) -> Option<BadLineReason<'_>> {
    let missing = NEEDED.iter().find(|setting| !has_line(text, **setting))?;
    Some(BadLineReason::Missing(row_of(*missing).word))
}

/// The line of a number, if there is one that isn't skipped.
fn line_of(text: &[u8], number: u64) -> Option<&[u8]> {
    let place = usize::try_from(number.checked_sub(1)?).ok()?;
    let line = text.split(|byte| *byte == b'\n').nth(place)?;
    if is_skipped(line) { None } else { Some(line) }
}

/// Why a configuration was not read whose first bad line has this number. `None` where neither its line nor a missing one says so.
pub fn bad_line_reason(text: &[u8], number: u64) -> Option<BadLineReason<'_>> {
    match line_of(text, number) {
        Some(line) => Some(line_reason(line)),
        None => missing_of(text),
    }
}
