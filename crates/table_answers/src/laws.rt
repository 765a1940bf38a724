// Laws of answers, over the definitions of specs/. The functions do nothing: their clauses are the laws.
ghost use Rattle.std.specs.Prelude.{◌≡◌, ℕ, true, List, [], ◌++◌, Option, IsOkAnd};
ghost use Rattle.std.specs.List.{AllByRecursion};
ghost use Rattle.hudi_base.specs.Files.{FileMap};
ghost use Rattle.hudi_base.specs.declared.file_group.GroupRef.{GroupRef};
ghost use Rattle.key_index.specs.Tiling.{IsBuckets};
ghost use Rattle.payload_merge.specs.Fold.{writes_from};
ghost use Rattle.payload_merge.specs.declared.row.Write.{Write};
ghost use Rattle.table_board.specs.HonestRuns.{IsUndamaged};
ghost use Rattle.table_core.specs.declared.job_reply.JobReply.{JobReply};
ghost use Rattle.table_core.specs.declared.job_reply.JobReply.TheVariants.{Committed};
ghost use Rattle.table_history.specs.Answers.{is_completed};
ghost use Rattle.table_history.specs.Histories.{History};
ghost use Rattle.table_history.specs.JobLaw.{IsLegal};
ghost use Rattle.table_history.specs.Tables.{Table, fresh};
ghost use Rattle.table_history.specs.Targets.{is_live};
ghost use Rattle.table_history.specs.declared.entry.Entry.{Entry};
ghost use Rattle.table_history.specs.declared.job.Job.{Job};
ghost use Rattle.table_images.specs.Blocks.{work_of};
ghost use Rattle.table_images.specs.Runs.{IsRun, Run, history_of};
ghost use Rattle.table_jobs.specs.Replies.{IsWriterReply};
ghost use Rattle.table_props.specs.PropsTexts.{Told as Properties};
ghost use Rattle.table_query.specs.Answers.{IsQueryReply};
ghost use Rattle.table_query.specs.ReadBytes.{PinsAt};
ghost use Rattle.upsert_writer.specs.Answers.{AnswersBatch};
ghost use Rattle.upsert_writer.specs.BatchWrites.{is_in_group};
ghost use Rattle.upsert_writer.specs.Batches.{NewWrites, batch_writes};
ghost use Rattle.upsert_writer.specs.Blocks.{BlockForm};
ghost use Rattle.upsert_writer.specs.WriterSteps.{WritesBatch};
ghost use Rattle.upsert_writer.specs.declared.batch.Batch.{Batch};
ghost use Rattle.table_answers.specs.InTurn.{CarriesForm, IsInTurn, IsMadeBy};
ghost use Rattle.table_answers.specs.InstantWrites.{WritesGroups, writes_of};
ghost use Rattle.table_answers.specs.NamedRuns.{AllNamesFit};
ghost use Rattle.table_answers.specs.Snapshots.{AnswersSnapshot};

use table_history::Work;

/// A job that makes its entries after those of others goes on with a history in turn.
pub fn turns_go_on()
    ensures first { IsInTurn [] }
    ensures next { (before after : History) (job : Job) (mine : List Entry)
        → IsInTurn before → IsMadeBy job before after mine → IsInTurn after }
{}

/// The appends of a writer carry blocks of its writes.
pub fn writers_carry_writes()
    ensures { (form : BlockForm) (batch : List Write) (before after : History) (job : Job) (mine : List Entry)
        → CarriesForm form before → IsMadeBy job before after mine → WritesBatch form batch mine
        → CarriesForm form after }
{}

/// A query appends nothing.
pub fn queries_carry_writes()
    ensures { (form : BlockForm) (at : Option ℕ) (before after : History) (job : Job) (mine : List Entry)
        → CarriesForm form before → IsMadeBy job before after mine → PinsAt at mine → CarriesForm form after }
{}

/// A history is legal, and its names have a form, where this holds of one that goes on from it; and the names of a run
/// have a form.
pub fn beginnings_are_legal<W: Work>()
    ensures legal { (A : Table) (before : History) (more : List Entry)
        → IsLegal (work_of W.asks W.holds) A (more ++ before) → IsLegal (work_of W.asks W.holds) A before }
    ensures names { (A : Table) (before : History) (more : List Entry)
        → AllNamesFit A (more ++ before) → AllNamesFit A before }
    ensures runs { (A : Table) (files : FileMap) (R : Run)
        → IsRun (work_of W.asks W.holds) A files R → AllNamesFit A (history_of R) }
{}

/// What a query answers, made of the bytes that it read, is the fold of the instants that were completed when it began,
/// up to the one that it pinned. So it is on a table that began without instants, where jobs came in turn, each append
/// carried a block of the form, and no file was damaged.
pub fn snapshots_are_folds<W: Work>()
    ensures { (form : BlockForm) (props : Properties) (before after : History) (job : Job) (mine : List Entry)
        (at : Option ℕ) (given : JobReply) → IsBuckets props.buckets → IsMadeBy job before after mine
        → IsLegal (work_of W.asks W.holds) (fresh props) after → AllNamesFit (fresh props) before
        → IsInTurn before → CarriesForm form before → AllByRecursion IsUndamaged mine
        → IsQueryReply (record { rows = form.reading; table = form.table }) at mine given
        → AnswersSnapshot form (fresh props) before at given }
{}

/// What a committed writer's instant wrote: group by group those writes of its batch that lie in the group, in their
/// order, rows with the instant and their places. Where all lie in one live group, it is the whole batch. The instant is
/// completed then. Of rows to put or keys to delete that a writer answers with `Committed` none was refused, and what its
/// instant wrote is their puts or their deletes.
pub fn committed_batches<W: Work>()
    ensures groups { (form : BlockForm) (props : Properties) (batch : List Write) (before after : History)
        (job : Job) (mine : List Entry) (t : ℕ) → IsMadeBy job before after mine
        → IsLegal (work_of W.asks W.holds) (fresh props) after → WritesBatch form batch mine
        → IsWriterReply mine (Committed t)
        → WritesGroups batch t (fresh props) (writes_of form (fresh props) after t) }
    ensures wrote { (form : BlockForm) (props : Properties) (batch : List Write) (before after : History)
        (job : Job) (mine : List Entry) (t : ℕ) (group : GroupRef) → IsBuckets props.buckets → IsMadeBy job before after mine
        → IsLegal (work_of W.asks W.holds) (fresh props) after → WritesBatch form batch mine
        → IsWriterReply mine (Committed t) → is_live (fresh props) group ≡ true
        → AllByRecursion (λ w. is_in_group group w ≡ true) batch
        → writes_of form (fresh props) after t ≡ writes_from t 0 batch }
    ensures completed { (form : BlockForm) (props : Properties) (batch : List Write) (before after : History)
        (job : Job) (mine : List Entry) (t : ℕ) → IsMadeBy job before after mine
        → IsLegal (work_of W.asks W.holds) (fresh props) after → WritesBatch form batch mine
        → IsWriterReply mine (Committed t) → is_completed (fresh props) after t ≡ true }
    ensures given { (form : BlockForm) (props : Properties) (new : NewWrites) (batch : Batch) (before after : History)
        (job : Job) (mine : List Entry) (t : ℕ) → IsMadeBy job before after mine
        → IsLegal (work_of W.asks W.holds) (fresh props) after
        → AnswersBatch form (batch_writes new batch) mine (Committed t)
        → IsOkAnd (batch_writes new batch) (λ writes.
        WritesGroups writes t (fresh props) (writes_of form (fresh props) after t)) }
{}

/// A completed instant stays completed, and its writes stay as they are, whatever comes after.
pub fn completed_instants_stay<W: Work>()
    ensures completed { (props : Properties) (H : History) (t : ℕ) (more : List Entry)
        → IsLegal (work_of W.asks W.holds) (fresh props) (more ++ H)
        → is_completed (fresh props) H t ≡ true → is_completed (fresh props) (more ++ H) t ≡ true }
    ensures wrote { (form : BlockForm) (props : Properties) (H : History) (t : ℕ) (more : List Entry)
        → IsLegal (work_of W.asks W.holds) (fresh props) (more ++ H)
        → is_completed (fresh props) H t ≡ true
        → writes_of form (fresh props) (more ++ H) t ≡ writes_of form (fresh props) H t }
{}
