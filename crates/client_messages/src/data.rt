//! The payload of a notification, and the headers by which it is read.
ghost use Rattle.std.specs.Prelude.{◌≡◌, IfOk, true};
ghost use Rattle.std.specs.String.{string_bytes};
ghost use Rattle.std.specs.List.{list_all};
ghost use Rattle.json.specs.Print.{quoted};
ghost use Rattle.push_model.specs.AskValue.{is_printable};
ghost use Rattle.client_messages.specs.ServerTexts.{key_part, salt_part, aesgcm_with, coding_headers};

use crate::shown::PayloadText;
use push_model::{Ask, Coding};
use serde_json::Value;
use std::alloc::{AllocError, Global};
use std::{fmt, str};

// Printable bytes as a text.
fn printable_text(bytes: &[u8]) -> &str
    requires { list_all is_printable bytes.now ≡ true }
    ensures { result.now ≡ bytes.now }
{
    match str::from_utf8(bytes) {
        Ok(text) => text,
        Err(_) => "",
    }
}

// Printable bytes as a JSON string, with its quotes and escapes.
fn quoted(alloc: Global, bytes: &[u8]) -> Result<String, AllocError>
    requires { list_all is_printable bytes.now ≡ true }
    ensures { IfOk result (λ text. string_bytes text ≡ quoted bytes.now) }
{
    Value::try_from_str(alloc, printable_text(bytes))?.to_string(alloc)
}

fn key_part(alloc: Global, ask: &Ask) -> Result<String, AllocError>
    ensures { IfOk result (λ text. string_bytes text ≡ key_part ask.now.crypto_key) }
{
    let key = ask.crypto_key.bytes();
    if key.is_empty() {
        return Ok(String::new(alloc));
    }
    let quoted = quoted(alloc, key)?;
    format!(in alloc; "\"crypto_key\":{quoted},")
}

fn salt_part(alloc: Global, ask: &Ask) -> Result<String, AllocError>
    ensures { IfOk result (λ text. string_bytes text ≡ salt_part ask.now.encryption) }
{
    let salt = ask.encryption.bytes();
    if salt.is_empty() {
        return Ok(String::new(alloc));
    }
    let quoted = quoted(alloc, salt)?;
    format!(in alloc; ",\"encryption\":{quoted}")
}

fn aesgcm_with(alloc: Global, key: &str, salt: &str) -> Result<String, AllocError>
    ensures { IfOk result (λ text. string_bytes text ≡ aesgcm_with key.now salt.now) }
{
    format!(in alloc; "{{{key}\"encoding\":\"aesgcm\"{salt}}}")
}

fn aesgcm_headers(alloc: Global, ask: &Ask) -> Result<String, AllocError>
    ensures { IfOk result (λ text. string_bytes text ≡ aesgcm_with (key_part ask.now.crypto_key) (salt_part ask.now.encryption)) }
{
    let key = key_part(alloc, ask)?;
    let salt = salt_part(alloc, ask)?;
    aesgcm_with(alloc, key.as_str(), salt.as_str())
}

/// The headers of an ask's coding, as a JSON object; empty for a bare one.
pub fn coding_headers(alloc: Global, ask: &Ask) -> Result<String, AllocError>
    ensures { IfOk result (λ text. string_bytes text ≡ coding_headers ask.now.terms.coding ask.now) }
{
    match ask.terms.coding {
        Coding::Bare => Ok(String::new(alloc)),
        Coding::Aes128gcm => String::from_str(alloc, "{\"encoding\":\"aes128gcm\"}"),
        Coding::Aesgcm => aesgcm_headers(alloc, ask),
    }
}

/// A payload and its headers, as `{}` prints them: two members, each with its comma, or nothing where the payload is
/// empty.
#[derive(Clone, Copy)]
pub struct DataText<'d> {
    /// The payload.
    pub payload: &'d [u8],
    /// The headers, a JSON object.
    pub headers: &'d str,
}

impl<'d> fmt::Display for DataText<'d> {
    ghost use Rattle.std.specs.Prelude.{Some};
    ghost use Rattle.client_messages.specs.ServerTexts.{data_with};

    ghost output = { λ w. Some (data_with w.payload.now w.headers.now) };

    fn fmt<W: fmt::Write>(&self, f: &mut fmt::Formatter<W>) -> fmt::Result {
        if self.payload.is_empty() {
            return Ok(());
        }
        let data = PayloadText(self.payload);
        let headers = self.headers;
        write!(f, "\"data\":\"{data}\",\"headers\":{headers},")
    }
}
