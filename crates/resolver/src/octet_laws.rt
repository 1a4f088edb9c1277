ghost use Rattle.resolver.specs.OctetLaws.{InsertsHaveOneOutcome, QueriesHaveOneOutcome, StoresReplyAsHeld};

/// By what is held, a query's octets have one outcome and one reply at a moment, and an upstream answer's octets make one next
/// state, or have one fault.
pub fn octets_have_one_outcome()
    ensures queries { QueriesHaveOneOutcome }
    ensures inserts { InsertsHaveOneOutcome }
{}

/// A store that batches made gives each reply that the records give which are held after them.
pub fn stores_reply_as_held()
    ensures { StoresReplyAsHeld }
{}
