//! What a run writes: the glyphs of the buffer on standard output, a fault on standard error.
ghost use Rattle.std.specs.Prelude.{◌≡◌, ◌<◌, ◌≤◌, length, IfErr};
ghost use Rattle.hbhook_commands.specs.declared.fault.Fault.TheVariants.{Broken};

use crate::fault::Fault;
use shapers_base::buffer::hb_buffer_t;
use std::alloc::AllocError;
use std::io::Write;

/// Adds a line for each glyph: glyph, cluster, mask, syllable, category, auxiliary and class, and
/// in a buffer with positions advance and offset.
pub fn print_buffer(text: &mut String, buffer: &hb_buffer_t) -> Result<(), AllocError> {
    for i in 0..buffer.len() {
        print_glyph(text, buffer, i)?;
    }
    Ok(())
}

// Adds the line of the glyph at place `i`.
fn print_glyph(text: &mut String, buffer: &hb_buffer_t, i: usize) -> Result<(), AllocError>
    requires { i < length buffer.now.glyphs }
{
    let glyph = buffer.get(i);
    write!(
        text,
        "{:04x} {} {:08x} {:02x} {} {} {}",
        glyph.glyph_id,
        glyph.cluster,
        glyph.mask,
        glyph.syllable,
        glyph.category,
        glyph.auxiliary,
        glyph.unicode_props.high_byte()
    )?;
    if i < buffer.positions_len() {
        let position = buffer.position(i);
        write!(text, " {} {}", position.x_advance, position.x_offset)?;
    }
    text.push('\n')?;
    Ok(())
}

/// Writes all of a text, or reports that the writer is broken.
pub fn write_text<W: Write + Drop>(mut output: W, text: &str) -> Result<(), Fault>
    ensures { IfErr result (λ fault. fault ≡ Broken) }
{
    let written = output
        .write_all(text.as_bytes())
        .and_then(|()| output.flush());
    written.map_err(|_| Fault::Broken)
}

/// Reports a fault as `report` does, and then on a line of its own what was expected of a rejected
/// line, or which line was refused.
pub fn explain<W: Write + Drop>(mut faults: W, fault: Fault) -> u8
    ensures { result ≤ 2 }
{
    let status = report(&mut faults, fault);
    let explained = match fault {
        Fault::Unreadable(number, expected) => {
            writeln!(faults, "line {number}: expected {expected}")
        }
        Fault::Refused(_, Some(number)) => writeln!(faults, "line {number}: refused"),
        Fault::Refused(_, None) => writeln!(
            faults,
            "no line: refused for the lines or for what is printed"
        ),
        Fault::Broken => Ok(()),
    };
    match explained {
        Ok(()) => status,
        Err(_) => Fault::Broken.status(),
    }
}

/// Reports a fault and returns the status to end with.
pub fn report<W: Write + Drop>(mut faults: W, fault: Fault) -> u8
    ensures { result ≤ 2 }
{
    if matches!(fault, Fault::Broken) {
        return fault.status();
    }
    match writeln!(faults, "{fault}") {
        Ok(()) => fault.status(),
        Err(_) => Fault::Broken.status(),
    }
}
