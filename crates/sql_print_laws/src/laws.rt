ghost use Rattle.sql_print_laws.specs.Laws.{ReadIsPrintable, PrintedDerives, PrintedTokens};
ghost use Rattle.sql_print_laws.specs.PrintedReads.{PrintedReads};

/// A statement that a text reads as can be printed.
pub fn read_is_printable()
    ensures { ReadIsPrintable }
{}

/// The tokens of a statement's canonical derivation derive that statement.
pub fn printed_derives()
    ensures { PrintedDerives }
{}

/// A statement's canonical text has the tokens of that derivation.
pub fn printed_tokens()
    ensures { PrintedTokens }
{}

/// The canonical text of a statement that was read reads as that statement again.
pub fn printed_reads()
    ensures { PrintedReads }
{}
