ghost use Rattle.mal_print_laws.specs.PrintedReads.{PrintedReads, PrintedIsText};

/// The canonical text of a plan without a fault, each of whose days has a text, reads as that plan,
/// and is a text of characters. The call computes nothing.
pub fn printed_reads()
    ensures reads { PrintedReads }
    ensures text { PrintedIsText }
{}
