//! Characters that stand for something else where a text is put.
ghost use Rattle.std.specs.Prelude.{◌≡◌, ◌++◌, IfOk, OnOk, chars, false, option_map, string_bytes};
ghost use Rattle.serde_json.specs.View.{view};
ghost use Rattle.serde_json.specs.Written.{has_float};
ghost use Rattle.smap_report.specs.Escapes as spec;

use serde_json::Value;
use smap_system::printable;
use std::alloc::{AllocError, Global};

/// Where a text is put.
#[derive(Clone, Copy)]
pub(crate) enum Place {
    /// The message of a workflow command.
    Data,
    /// A property of a workflow command.
    Property,
    /// Text or an attribute of XML.
    Xml,
}

/// What a character is written as in the message of a workflow command, unless as itself.
fn data_escape(c: char) -> Option<&'static str>
    ensures { option_map (λ t. t.now) result ≡ spec.data_escape c }
{
    match c {
        '%' => Some("%25"),
        '\r' => Some("%0D"),
        '\n' => Some("%0A"),
        _ => None,
    }
}

/// What a character is written as in a property of a workflow command, unless as itself.
fn property_escape(c: char) -> Option<&'static str>
    ensures { option_map (λ t. t.now) result ≡ spec.property_escape c }
{
    match c {
        ':' => Some("%3A"),
        ',' => Some("%2C"),
        _ => data_escape(c),
    }
}

/// What a character is written as in XML, unless as itself.
fn xml_escape(c: char) -> Option<&'static str>
    ensures { option_map (λ t. t.now) result ≡ spec.xml_escape c }
{
    match c {
        '&' => Some("&amp;"),
        '<' => Some("&lt;"),
        '>' => Some("&gt;"),
        '"' => Some("&quot;"),
        '\u{fffe}' => Some("\u{fffd}"),
        '\u{ffff}' => Some("\u{fffd}"),
        _ => None,
    }
}

fn escape(place: Place, c: char) -> Option<&'static str>
    ensures { option_map (λ t. t.now) result ≡ spec.escape place c }
{
    match place {
        Place::Data => data_escape(c),
        Place::Property => property_escape(c),
        Place::Xml => xml_escape(c),
    }
}

fn push_escaped(text: &mut String, place: Place, c: char) -> Result<(), AllocError>
    ensures { OnOk result (string_bytes text.new ≡ string_bytes text.old ++ spec.escaped_char place c) }
{
    match escape(place, c) {
        Some(written) => text.push_str(written),
        None => text.push(c),
    }
}

/// A text as it is written there.
fn escaped(alloc: Global, place: Place, text: &str) -> Result<String, AllocError>
    ensures { IfOk result (λ t. string_bytes t ≡ spec.escaped place text.now) }
{
    let mut made = String::new(alloc);
    for c in text.chars() {
        push_escaped(&mut made, place, c)?;
    }
    Ok(made)
}

/// A text as it is written there, with the characters that a terminal may take for something else as
/// `\u001b`.
pub(crate) fn shown(alloc: Global, place: Place, text: &str) -> Result<String, AllocError>
    ensures { IfOk result (λ t. string_bytes t ≡ spec.shown place text.now) }
{
    let text = escaped(alloc, place, text)?;
    printable(alloc, text.as_bytes())
}

/// A text as it is written in XML.
pub(crate) fn xml(alloc: Global, text: &str) -> Result<String, AllocError>
    ensures { IfOk result (λ t. string_bytes t ≡ spec.xml text.now) }
{
    shown(alloc, Place::Xml, text)
}

/// A value as JSON, its strings with such characters as `\u001b`, which is JSON's escape too.
pub(crate) fn json_text(alloc: Global, value: &Value) -> Result<String, AllocError>
    ensures { IfOk result (λ t. has_float (view value.now) ≡ false
        → string_bytes t ≡ spec.json_text (view value.now)) }
{
    let json = value.to_string(alloc)?;
    printable(alloc, json.as_bytes())
}
