ghost use Rattle.std.specs.Prelude.{◌≡◌};
ghost use Rattle.sheet.specs.Head.{limits, head_of};
ghost use Rattle.sheet.specs.Read.{Readable};

use crate::SheetHead;

// A sheet that none of 1 to 6 refuses: its bytes, and its head.
#[derive(Clone, Copy)]
pub struct ReadableSheet<'a> {
    pub bytes: &'a [u8],
    pub head: SheetHead,
    ghost readable: { Readable limits bytes.now },
    ghost head_is: { head ≡ head_of bytes.now },
}
