// Laws of images, over the definitions of specs/. The functions do nothing: their clauses are the laws.
ghost use Rattle.std.specs.Prelude.{◌≡◌, ◌≢◌, ℕ, ◌+◌, ◌≤◌, List, [], ◌∷◌, ◌++◌, length, Some, None, Ok};
ghost use Rattle.std.specs.FinMap.{empty, get};
ghost use Rattle.hudi_base.specs.Files.{FileMap, IsImage, Told, content, after, changed, changed_all};
ghost use Rattle.hudi_base.specs.Store.{IsLeftBy, Lacks};
ghost use Rattle.hudi_base.specs.declared.operation.Operation.{Operation};
ghost use Rattle.hudi_base.specs.declared.operation.Operation.TheVariants.{Append, Create};
ghost use Rattle.hudi_base.specs.declared.file_group.GroupRef.{GroupRef};
ghost use Rattle.hudi_base.specs.declared.file_group.Target.{Target};
ghost use Rattle.file_names.specs.FileName.{IsNamed, group_of_file, name_of};
ghost use Rattle.file_names.specs.declared.file_name.FileName.{FileName};
ghost use Rattle.log_block.specs.declared.block.Block.{Block};
ghost use Rattle.key_index.specs.Tiling.{IsBuckets};
ghost use Rattle.table_history.specs.After.{reopened};
ghost use Rattle.table_history.specs.Answers.{May, IsNext};
ghost use Rattle.table_history.specs.Histories.{History};
ghost use Rattle.table_history.specs.JobLaw.{IsLegal};
ghost use Rattle.table_history.specs.Logs.{known_length, version_in_use};
ghost use Rattle.table_history.specs.Operations.{operation, Succeeds};
ghost use Rattle.table_history.specs.Tables.{KnownFile, Table, fresh};
ghost use Rattle.table_history.specs.declared.entry.Entry.{Entry};
ghost use Rattle.table_history.specs.declared.job.Job.{Job};
ghost use Rattle.table_history.specs.declared.operation.Op.TheVariants as op;
ghost use Rattle.table_history.specs.declared.reply.Reply.{Reply};
ghost use Rattle.table_history.specs.declared.reply.Reply.TheVariants.{Fault};
ghost use Rattle.table_history.specs.declared.step.Step.{Step};
ghost use Rattle.table_images.specs.Blocks.{HoldsBlocks, work_of};
ghost use Rattle.table_images.specs.Chains.{Chain, IsChain};
ghost use Rattle.table_images.specs.Frames.{name_of_operation};
ghost use Rattle.table_images.specs.Kept.{Kept};
ghost use Rattle.table_images.specs.LogTexts.{IsLogOf, blocks_in};
ghost use Rattle.table_images.specs.Properties.{properties_name};
ghost use Rattle.table_images.specs.Runs.{Did, MayCome, Run, IsRun, NamesFit, files_after, history_of, log_in_use, operations_of};
ghost use Rattle.table_images.specs.Stands.{StandsAfter, StandsFor, IsJustOpened, IsListing, IsPieceThere};
ghost use Rattle.table_images.specs.StoreRuns.{IsRunOn};
ghost use Rattle.table_images.specs.Stops.{KeepsAll, IsAtStop};
ghost use Rattle.table_props.specs.PropsTexts.{Told as Properties, read_props};

use table_history::Work;

/// An operation changes the file that it names and no other, and the chain of no other group. So what is said of a
/// file, a slice or a group rests on their files alone, and each kind of step has work to do at its own file only.
pub fn operations_leave_other_files()
    ensures files { (files : FileMap) (operation : Operation) (name : List ℕ) → name ≢ name_of_operation operation
        → get (changed files operation) name ≡ get files name }
    ensures groups { (A : Table) (image : FileMap) (operation : Operation) (of : FileName) (group : GroupRef)
        (chain : Chain) → IsNamed of → name_of_operation operation ≡ name_of A.props.name of
        → group_of_file of ≢ Some group → IsChain image A group chain → IsChain (changed image operation) A group chain }
{}

/// A log's text is the text of one list of blocks, and a group has one chain.
pub fn texts_and_chains_are_one()
    ensures texts { (blocks : List Block) (bytes : List ℕ) → IsLogOf blocks bytes → blocks_in bytes ≡ blocks }
    ensures chains { (image : FileMap) (A : Table) (group : GroupRef) (chain other : Chain)
        → IsChain image A group chain → IsChain image A group other → chain ≡ other }
{}

/// A file of properties alone stands for a table without instants that has these, and was just opened.
pub fn properties_are_a_fresh_table()
    ensures stands { (props : Properties) (bytes : List ℕ) → IsBuckets props.buckets → read_props bytes ≡ Ok props
        → StandsFor (changed empty (Create (properties_name (fresh props)) bytes)) (fresh props) 0 }
    ensures opened { (props : Properties) (bytes : List ℕ)
        → IsJustOpened (changed empty (Create (properties_name (fresh props)) bytes)) (fresh props) }
{}

/// Where the files of an image stand for a table, also in the middle of a session, they stand for the table that is
/// opened again on them: what stands is all that an opening rests on.
pub fn images_can_be_opened()
    ensures stands { (image : FileMap) (A : Table) (tries : ℕ) (files : List KnownFile)
        → StandsFor image A tries → IsListing image A files → StandsFor image (reopened A files) 0 }
    ensures opened { (image : FileMap) (A : Table) (files : List KnownFile)
        → IsListing image A files → IsJustOpened image (reopened A files) }
{}

/// What a step keeps: it holds of a table that was just opened and whose files stand for it; each entry of a run, also
/// one that failed, keeps it; and where it holds, the files stand for the table after the entries.
pub fn steps_keep_images<W: Work>()
    ensures opened { (A : Table) (files : FileMap) → StandsFor files A 0 → IsJustOpened files A → Kept A files [] }
    ensures keeps { (A : Table) (files : FileMap) → IsJustOpened files A → HoldsBlocks W.holds
        → KeepsAll (work_of W.asks W.holds) A (Kept A) }
    ensures stands { (A : Table) (image : FileMap) (H : History) → Kept A image H → StandsAfter A image H }
{}

/// Every image that a stop can leave of a run stands for the table after the entries so far, or with the step under
/// way, failed or done. Before the run other operations may have been done.
pub fn every_image_stands<W: Work>()
    ensures images { (A : Table) (first : FileMap) (before : List Operation) (R : Run) (k : ℕ) (image : FileMap)
        → HoldsBlocks W.holds
        → StandsFor (changed_all first before) A 0 → IsJustOpened (changed_all first before) A
        → IsRun (work_of W.asks W.holds) A (changed_all first before) R
        → k ≤ length (operations_of R) → IsImage first (before ++ operations_of R) (length before + k) image
        → IsAtStop (StandsAfter A) R k image }
    ensures end { (A : Table) (files : FileMap) (R : Run)
        → HoldsBlocks W.holds → StandsFor files A 0 → IsJustOpened files A
        → IsRun (work_of W.asks W.holds) A files R
        → StandsAfter A (files_after files R) (history_of R) }

    // A run is legal, and so is each run that it began with: after each entry the files stood.
    ensures fronts { (A : Table) (files : FileMap) (later so_far : Run)
        → IsRun (work_of W.asks W.holds) A files (later ++ so_far)
        → IsRun (work_of W.asks W.holds) A files so_far }
    ensures legal { (A : Table) (files : FileMap) (R : Run)
        → IsRun (work_of W.asks W.holds) A files R
        → IsLegal (work_of W.asks W.holds) A (history_of R) }
{}

/// Over an honest store whose files stood for the table no step is `Damaged`: a file that a step makes isn't there, and
/// a piece that it reads is there, whole, and of the bytes that the table knows.
pub fn no_file_is_damaged<W: Work>()
    ensures name_is_new { (A : Table) (files : FileMap) (R : Run)
        → HoldsBlocks W.holds → StandsFor files A 0 → IsJustOpened files A
        → IsRun (work_of W.asks W.holds) A files R
        → (e : Entry) (name bytes : List ℕ) → IsNext A (history_of R) e → NamesFit A (history_of R) e.step e.reply
        → operation A (history_of R) e.step e.reply ≡ op.Create name bytes → get (files_after files R) name ≡ None }
    ensures piece_is_there { (A : Table) (files : FileMap) (R : Run)
        → HoldsBlocks W.holds → StandsFor files A 0 → IsJustOpened files A
        → IsRun (work_of W.asks W.holds) A files R
        → (job : Job) (step : Step) (reply : Reply) (name : List ℕ) (offset len : ℕ) → May A (history_of R) job step
        → operation A (history_of R) step reply ≡ op.Read name offset len
        → IsPieceThere (files_after files R) A (history_of R) name offset len }

    // An append goes behind the known bytes of its log and nothing else: the offset in its reply is the file's end.
    ensures ends_at_known { (A : Table) (files : FileMap) (R : Run)
        → HoldsBlocks W.holds → StandsFor files A 0 → IsJustOpened files A → IsRun (work_of W.asks W.holds) A files R
        → (s : Target) → IsNamed (log_in_use A (history_of R) s)
        → length (content (files_after files R) (name_of A.props.name (log_in_use A (history_of R) s)))
        ≡ known_length A (history_of R) s (version_in_use A (history_of R) s) }
{}

/// What an honest store answers leads from a run to a run with one entry more, and every image of the operations that
/// the store tells stands.
pub fn stores_tell_runs<W: Work>()
    ensures begins { (A : Table) (files : FileMap) (before : List Operation) (told : Told)
        → told.files ≡ Some files → told.operations ≡ Some before
        → IsRunOn (work_of W.asks W.holds) A files before [] told }

    // The step had nothing to do, or its file wasn't made, or was there already.
    ensures nothing { (A : Table) (files : FileMap) (before : List Operation) (H : History) (told : Told) (e : Entry)
        → IsRunOn (work_of W.asks W.holds) A files before H told
        → MayCome (work_of W.asks W.holds) A H e → Did (operation A H e.step e.reply) e.reply None
        → IsRunOn (work_of W.asks W.holds) A files before (e ∷ H) told }

    // A file of the timeline was made.
    ensures creates { (A : Table) (files : FileMap) (before : List Operation) (H : History) (told : Told) (e : Entry)
        (name bytes : List ℕ) → IsRunOn (work_of W.asks W.holds) A files before H told
        → MayCome (work_of W.asks W.holds) A H e
        → operation A H e.step e.reply ≡ op.Create name bytes → Succeeds e.reply → Lacks told name
        → IsRunOn (work_of W.asks W.holds) A files before (e ∷ H) (after told (Create name bytes)) }

    // A block was appended.
    ensures appends { (A : Table) (files : FileMap) (before : List Operation) (H : History) (told : Told) (e : Entry)
        (name bytes : List ℕ) → IsRunOn (work_of W.asks W.holds) A files before H told
        → MayCome (work_of W.asks W.holds) A H e
        → operation A H e.step e.reply ≡ op.Append name bytes → Succeeds e.reply
        → IsRunOn (work_of W.asks W.holds) A files before (e ∷ H) (after told (Append name bytes)) }

    // An append failed, and may have left a prefix of the block.
    ensures fails { (A : Table) (files : FileMap) (before : List Operation) (H : History) (old new : Told) (e : Entry)
        (name bytes : List ℕ) → IsRunOn (work_of W.asks W.holds) A files before H old
        → MayCome (work_of W.asks W.holds) A H e
        → operation A H e.step e.reply ≡ op.Append name bytes → e.reply ≡ Fault
        → IsLeftBy (Append name bytes) old new
        → IsRunOn (work_of W.asks W.holds) A files before (e ∷ H) new }
    ensures images { (A : Table) (first : FileMap) (before operations : List Operation) (H : History) (told : Told)
        → HoldsBlocks W.holds
        → StandsFor (changed_all first before) A 0 → IsJustOpened (changed_all first before) A
        → (ran : IsRunOn (work_of W.asks W.holds) A (changed_all first before) before H told)
        → told.operations ≡ Some operations → (k : ℕ) (image : FileMap) → length before + k ≤ length operations
        → IsImage first operations (length before + k) image → IsAtStop (StandsAfter A) ran.run k image }
{}
