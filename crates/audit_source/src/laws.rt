ghost use Rattle.audit_source.specs.Laws.{HasOneReading};

/// Octets are a source of one zone, one input and one output, or have one fault, and never both.
pub fn one_reading()
    ensures { HasOneReading }
{}
