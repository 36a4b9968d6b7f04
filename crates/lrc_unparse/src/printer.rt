ghost use Rattle.std.specs.Prelude.{◌≡◌, [], ◌∷◌, ◌++◌, IfOk, OnOk};
ghost use Rattle.std.specs.Int.{to_le_bytes, cast_unsigned, w64};
ghost use Rattle.std.specs.Fmt.{signed_decimal};
ghost use Rattle.lrc_code.specs.Decoding.{nonzero};
ghost use Rattle.lrc_unparse.specs.Printing.{IsShort, Puts};
ghost use Rattle.lrc_unparse.specs.declared.printer.Part.TheVariants as a_part;

use itoa::Buffer;
use lrc_base::limits::PRINT_LIMIT;
use lrc_base::{List, Memory};
use lrc_store::Handle;
use std::alloc::Global;

/// A part of a text that is still to be printed.
#[derive(Debug, Clone, Copy, PartialEq, Eq)]
pub(crate) enum Part {
    /// A tree.
    Tree(Handle),
    /// The words of a name.
    Words(Handle),
    /// Children of a node and the closing bracket; whether the first of them is the node's first.
    Kids(Handle, bool),
    /// The pieces of a production's pattern from the one of this number on, and the list of the
    /// children of the node.
    Pieces {
        production: u32,
        next: usize,
        kids: Handle,
    },
}

/// A text in the making: its bytes so far, and the parts that are still to be printed, of which the
/// last one comes first.
///
/// Of a text that is longer than what may be printed, one byte more is made, and no further one.
#[derive(Debug, Drop)]
pub(crate) struct Printer {
    pub text: Vec<u8>,
    pub pending: List<Part>,
}

/// A printer of the tree.
pub(crate) fn printer_of(alloc: Global, tree: Handle) -> Result<Printer, Memory>
    ensures { IfOk result (λ p. (p.text.items ≡ []) × (p.pending ≡ a_part.Tree tree ∷ [])) }
{
    let mut pending = List::new(alloc);
    pending.push(Part::Tree(tree))?;
    Ok(Printer {
        text: Vec::new(alloc),
        pending,
    })
}

impl Printer {
    /// Prints the bytes, as far as bytes are made.
    pub(crate) fn put(&mut self, bytes: &[u8]) -> Result<(), Memory>
        requires { IsShort self.old }
        ensures { OnOk result (Puts self.old bytes.now self.new) }
    {
        let room = PRINT_LIMIT + 1 - self.text.len();
        self.text
            .extend_from_slice(&bytes[..bytes.len().min(room)])?;
        Ok(())
    }

    /// Prints a number in decimal.
    pub(crate) fn put_number(&mut self, number: i64) -> Result<(), Memory>
        requires { IsShort self.old }
        ensures { OnOk result (Puts self.old (signed_decimal number) self.new) }
    {
        let mut buffer = Buffer::new();
        self.put(buffer.format(number).as_bytes())
    }

    /// Prints a byte of a word of a name, unless it is padding.
    fn put_byte(&mut self, byte: u8) -> Result<(), Memory>
        requires { IsShort self.old }
        ensures { OnOk result (Puts self.old (nonzero (byte ∷ [])) self.new) }
    {
        if byte == 0 {
            return Ok(());
        }
        self.put(&[byte])
    }

    /// Prints the bytes of a word of a name, without the padding.
    pub(crate) fn put_word(&mut self, word: i64) -> Result<(), Memory>
        requires { IsShort self.old }
        ensures { OnOk result (Puts self.old (nonzero (to_le_bytes w64 (cast_unsigned w64 word))) self.new) }
    {
        let bytes = word.to_le_bytes();
        for byte in bytes {
            self.put_byte(byte)?;
        }
        Ok(())
    }
}
