// A law of scripts. The function does nothing: its clause is the law.
ghost use Rattle.job_script.specs.Rows.{ScriptsHaveSizes};

/// The jobs of a script have rows within the limits: 1 to 100,000 an upsert, with keys of 1 to 1,000 bytes and bodies
/// of at most 65,536.
pub fn scripts_have_sizes()
    ensures { ScriptsHaveSizes }
{}
