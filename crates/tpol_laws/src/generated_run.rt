//! What the command `gen` promises: a function whose clauses are the laws.

ghost use Rattle.std.specs.Prelude.{◌≤◌, ℕ};
ghost use Rattle.tpol_generate.specs.Generate.{generated_answer};
ghost use Rattle.tpol_laws.specs.GeneratedRun.{IsGeneratedText, closed_of};

/// The command `gen` prints seven lines, whatever its two numbers are: these, the number of paths, which is 2 to the
/// number of ORs, the policy's digest, the run's path, which is the one by each branch `b`, how many commands are
/// executed, the last of them, which is the goal's Unseal with the machine's answer, and that the run is served with the
/// object's secret (`IsGeneratedText`). The number of ORs is what `gen` takes, at most 12.
pub fn gen_is_served()
    ensures { (ors order : ℕ) → ors ≤ 12
        → IsGeneratedText ors order (generated_answer ors order (closed_of ors order)).lines }
{}
