//! The generated specification, part by part.
ghost use Rattle.std.specs.Prelude.{◌≡◌, ◌<◌, ◌++◌, ◌↔◌, List, ℕ, Err, IfOk, OnOk};
ghost use Rattle.std.specs.List.{flat_map, range_with_len};
ghost use Rattle.std.specs.Fmt.{decimal};
ghost use Rattle.tm_gen.specs.Generated.{main_lines, os_lines, register_lines, dev_lines, text_of, generated_text};

use itoa::Buffer;
use std::alloc::{AllocError, Global};
use thiserror::Error;

/// The most registers that a generated device may have.
const MOST_REGISTERS: u32 = 12;

/// Why there is no text: more than 12 registers are asked for, or memory is wanting.
#[derive(Debug, Drop, Error)]
pub enum GenError {
    #[error("more than 12 registers are asked for")]
    TooLarge,
    #[error("out of memory")]
    Memory,
}

impl From<AllocError> for GenError {
    ghost use Rattle.std.specs.Prelude.{◌≡◌};
    ghost use Rattle.tm_gen.specs.declared.specification.GenError.TheVariants.{Memory};

    ghost from_gives = { λ _ e. e ≡ Memory };

    fn from(_: AllocError) -> Self {
        GenError::Memory
    }
}

/// The text of the generated specification of `n` registers: a system asks for a write to one register of a device
/// after the other, and a driver has to answer it.
///
/// `TooLarge` comes exactly where `n` is above 12.
pub fn generate(alloc: Global, n: u32) -> Result<Vec<u8>, GenError>
    ensures text { IfOk result (λ text. text.items ≡ generated_text n) }
    ensures too_large { (result ≡ Err GenError.TooLarge) ↔ 12 < n }
{
    if n > MOST_REGISTERS {
        return Err(GenError::TooLarge);
    }
    let mut text = Vec::new(alloc);
    push_main(&mut text)?;
    push_os(&mut text, n)?;
    push_dev(&mut text, n)?;
    Ok(text)
}

fn push_main(text: &mut Vec<u8>) -> Result<(), AllocError>
    ensures { OnOk result (text.new.items ≡ text.old.items ++ text_of main_lines) }
{
    push(
        text,
        b"template main\ninstance Os os;\ninstance Dev dev(os);\nendtemplate\n",
    )
}

fn push_os(text: &mut Vec<u8>, n: u32) -> Result<(), AllocError>
    ensures { OnOk result (text.new.items ≡ text.old.items ++ text_of (os_lines n)) }
{
    push(
        text,
        b"template Os\nuint<4> turn = 0;\nuint<8> req = 0;\nbool want = false;\n",
    )?;
    push(
        text,
        b"process client {\nforever {\nreq = *;\nwant = true;\n...;\nwait(!want);\n",
    )?;
    push_numbered(text, b"turn = turn + 1;\nif (turn == ", n)?;
    push(
        text,
        b") { turn = 0; }\n}\n}\ngoal served = !want;\nendtemplate\n",
    )?;
    Ok(())
}

fn push_dev(text: &mut Vec<u8>, n: u32) -> Result<(), AllocError>
    ensures { OnOk result (text.new.items ≡ text.old.items ++ text_of (dev_lines n)) }
{
    push(text, b"template Dev(Os os)\n")?;
    push_registers(text, n)?;
    push(text, b"endtemplate\n")?;
    Ok(())
}

fn push_registers(text: &mut Vec<u8>, n: u32) -> Result<(), AllocError>
    ensures { OnOk result (text.new.items
        ≡ text.old.items ++ text_of (flat_map register_lines (range_with_len 0 n))) }
{
    for k in 0..n {
        push_register(text, k)?;
    }
    Ok(())
}

fn push_register(text: &mut Vec<u8>, k: u32) -> Result<(), AllocError>
    ensures { OnOk result (text.new.items ≡ text.old.items ++ text_of (register_lines k)) }
{
    push_numbered(text, b"uint<8> r", k)?;
    push_numbered(text, b" = 0;\ntask controllable write", k)?;
    push_numbered(text, b"(uint<8> v) { r", k)?;
    push_numbered(text, b" = v; if (os.turn == ", k)?;
    push(text, b" && v == os.req) { os.want = false; } }\n")?;
    Ok(())
}

/// Puts a piece and the decimal digits of a number behind the text.
fn push_numbered(text: &mut Vec<u8>, piece: &[u8], n: u32) -> Result<(), AllocError>
    ensures { OnOk result (text.new.items ≡ text.old.items ++ (piece.now ++ decimal n)) }
{
    push(text, piece)?;
    push(text, Buffer::new().format(n).as_bytes())?;
    Ok(())
}

fn push(text: &mut Vec<u8>, piece: &[u8]) -> Result<(), AllocError>
    ensures { OnOk result (text.new.items ≡ text.old.items ++ piece.now) }
{
    text.extend_from_slice(piece)
}
