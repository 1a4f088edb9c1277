ghost use Rattle.serving.specs.Links.{ShiftsServe};

/// What the workers of a new cache did over their links is one history, once the cache is closed.
pub fn shifts_serve()
    ensures { ShiftsServe }
{}
