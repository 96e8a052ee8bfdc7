//! What a collection may take its memory from.
ghost use Rattle.std.specs.Prelude.{◌<◌, ◌≤◌};
ghost use Rattle.std.specs.Mem.{type_size};
ghost use Rattle.std.specs.Align.{type_align};
ghost use Rattle.std.proofs.Common.{rules};

use std::alloc::{Allocator, Global};

/// What a collection may take its memory from: `Global`, or a `&` to any allocator, as to a heap, an arena or a budget. It is copied into each list of
/// a collection, and gives a block back where it took it.
pub trait Handle: Allocator + Copy {
    // So many bytes leave room for a list beside them.
    ghost small: { type_size Self.row < 65536 };

    // An alignment in bytes, by number.
    ghost plain: { type_align Self.row ≤ 16 };
}

impl Handle for Global {
    ghost small = { Prim.search rules };

    ghost plain = { Prim.search rules };
}

impl<'a, B: Allocator> Handle for &'a B {
    ghost small = { Prim.search rules };

    ghost plain = { Prim.search rules };
}
