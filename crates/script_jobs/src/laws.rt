// A law of scripts. The function does nothing: its clause is the law.
ghost use Rattle.script_jobs.specs.Limits.{ScriptsAreWithin};

/// The jobs of every script are within the limits: what the first one makes is a table, no other one makes any, each
/// has a lane that is open, and there are 1 to 100,000 rows, which are objects, or keys.
pub fn scripts_are_within_limits()
    ensures { ScriptsAreWithin }
{}
