//! The marker of a variable-size integer: RFC 8794, section 4 (Variable-Size Integer).
ghost use Rattle.std.specs.Prelude.{◌≡◌, ◌≤◌};
ghost use Rattle.ebml_numbers.specs.Number.{all_ones, marker};

// Returns the marker bit of a variable-size integer of `width` bytes, to write a size or to remove the marker of a read
// one. Used by `all_ones` and `put_size`.
pub(crate) fn marker(width: u8) -> u64
    requires { width ≤ 8 }
    ensures { result ≡ marker width }
{
    1 << (7 * width)
}

// Returns the largest data of a variable-size integer of `width` bytes: all bits are 1. For a size it means unknown;
// for an ID it is the bound of the valid ones. Used by `is_id_data`, `size_of_data` and others.
pub(crate) fn all_ones(width: u8) -> u64
    requires { width ≤ 8 }
    ensures { result ≡ all_ones width }
{
    marker(width) - 1
}
