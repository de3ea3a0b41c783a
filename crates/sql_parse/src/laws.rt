ghost use Rattle.read_laws.specs.Answered.{EachIsFormed};

use sql_print_laws::read_is_printable;

/// Each statement that a text reads as is formed.
pub fn each_is_formed()
    ensures { EachIsFormed }
{
    read_is_printable();
}
