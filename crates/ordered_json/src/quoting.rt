ghost use Rattle.std.specs.Prelude.{◌≡◌, ◌<◌, ◌++◌, ◌∷◌, [], length, take, IsTrue, OnOk, OnErr};
ghost use Rattle.json_spec.specs.PrintedString.{quoted, escaped, escaped_byte, hex_digit};

use shared_types::Memory;

const QUOTE: u8 = 34;

const BACKSLASH: u8 = 92;

const LESS_THAN: u8 = 60;

/// Appends a text as a JSON string (RFC 8259, 7). `<` is escaped too, so that the string may stand in a script element.
/// Without memory `into` stays as it was.
pub fn print_text(into: &mut Vec<u8>, text: &str) -> Result<(), Memory>
    ensures printed { OnOk result (into.new.items ≡ into.old.items ++ quoted text.now) }
    ensures kept { OnErr result (into.new.items ≡ into.old.items) }
{
    let start = into.len();
    match push_quoted(into, text.as_bytes()) {
        Ok(()) => Ok(()),
        Err(memory) => {
            into.truncate(start);
            Err(memory)
        }
    }
}

fn push_quoted(into: &mut Vec<u8>, bytes: &[u8]) -> Result<(), Memory>
    ensures printed { OnOk result (into.new.items ≡ into.old.items ++ quoted bytes.now) }
    ensures kept { take (length into.old.items) into.new.items ≡ into.old.items }
{
    into.push(QUOTE)?;
    push_content(into, bytes)?;
    into.push(QUOTE)?;
    Ok(())
}

fn push_content(into: &mut Vec<u8>, bytes: &[u8]) -> Result<(), Memory>
    ensures printed { OnOk result (into.new.items ≡ into.old.items ++ escaped bytes.now) }
    ensures kept { take (length into.old.items) into.new.items ≡ into.old.items }
{
    if all_stand(bytes) {
        into.extend_from_slice(bytes)
    } else {
        push_escaped(into, bytes)
    }
}

// Whether each byte stands for itself.
fn all_stand(bytes: &[u8]) -> bool
    ensures { IsTrue result → escaped bytes.now ≡ bytes.now }
{
    let mut all = true;
    for byte in bytes {
        all = all & stands_for_itself(*byte);
    }
    all
}

fn stands_for_itself(byte: u8) -> bool
    ensures { IsTrue result → escaped_byte byte ≡ byte ∷ [] }
{
    (byte != QUOTE) & (byte != BACKSLASH) & (byte != LESS_THAN) & (byte >= 32)
}

fn push_escaped(into: &mut Vec<u8>, bytes: &[u8]) -> Result<(), Memory>
    ensures printed { OnOk result (into.new.items ≡ into.old.items ++ escaped bytes.now) }
    ensures kept { take (length into.old.items) into.new.items ≡ into.old.items }
{
    for byte in bytes {
        push_byte(into, *byte)?;
    }
    Ok(())
}

fn push_byte(into: &mut Vec<u8>, byte: u8) -> Result<(), Memory>
    ensures printed { OnOk result (into.new.items ≡ into.old.items ++ escaped_byte byte) }
    ensures kept { OnErr result (into.new.items ≡ into.old.items) }
{
    if byte == QUOTE || byte == BACKSLASH {
        into.extend_from_slice(&[BACKSLASH, byte])
    } else if byte < 32 || byte == LESS_THAN {
        into.extend_from_slice(&[
            BACKSLASH,
            b'u',
            b'0',
            b'0',
            lower_hex_digit(byte / 16),
            lower_hex_digit(byte % 16),
        ])
    } else {
        into.push(byte)?;
        Ok(())
    }
}

fn lower_hex_digit(value: u8) -> u8
    requires { value < 16 }
    ensures { result ≡ hex_digit value }
{
    if value < 10 {
        b'0' + value
    } else {
        b'a' + (value - 10)
    }
}
