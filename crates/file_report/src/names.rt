// A name as the screens show it. A name may hold any bytes, and its text only those that a terminal prints.
ghost use Rattle.std.specs.Prelude.{◌≡◌, ◌++◌, IfOk, string_bytes};
ghost use Rattle.std.specs.List.{AllByRecursion};
ghost use Rattle.file_report.specs.Names.{trimmed, hex_digit, shown_byte, shown_name, Printable};

use std::alloc::{AllocError, Global};

// The name without the zeros that fill its field up.
fn without_padding(mut name: &[u8]) -> &[u8]
    ensures { result.now ≡ trimmed name.entry.now }
{
    while let [rest @ .., 0] = name {
        name = rest;
    }
    name
}

// The last hexadecimal digit of a number.
fn hex_digit(n: u8) -> char
    ensures { result ≡ hex_digit n }
{
    let digit = n % 16;
    char::from(if digit < 10 {
        b'0' + digit
    } else {
        b'a' + (digit - 10)
    })
}

// Byte by byte, and not by a `Display` of each: a formatter takes some five times as long.
fn push_shown(text: &mut String, byte: u8) -> Result<(), AllocError>
    ensures { IfOk result (λ _.
        string_bytes text.new ≡ string_bytes text.old ++ shown_byte byte) }
{
    match byte {
        b'"' | b'\\' => {
            text.push('\\')?;
            text.push(char::from(byte))
        }
        b' '..=b'~' => text.push(char::from(byte)),
        _ => {
            text.push_str("\\x")?;
            text.push(hex_digit(byte / 16))?;
            text.push(hex_digit(byte))
        }
    }
}

pub fn name_text(heap: Global, name: &[u8]) -> Result<String, AllocError>
    ensures shown { IfOk result (λ s. string_bytes s ≡ shown_name name.now) }
    ensures printable { IfOk result (λ s. AllByRecursion Printable (string_bytes s)) }
{
    let mut text = String::new(heap);
    for byte in without_padding(name) {
        push_shown(&mut text, *byte)?;
    }
    Ok(text)
}
