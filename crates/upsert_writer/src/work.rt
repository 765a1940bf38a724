// What writers write, whatever their batches are.
ghost use Rattle.std.specs.Prelude.{List};
ghost use Rattle.payload_merge.specs.declared.row.Write.{Write};
ghost use Rattle.upsert_writer.specs.Blocks.{BlockForm, IsBlockOf};
ghost use Rattle.upsert_writer.specs.Slots.{AreSlotsOf};

use table_history::Work;

/// The work of a table whose jobs may write any batch: the slots of some writes, and the blocks of some writes in some
/// form.
pub struct AnyBatch {}

impl Work for AnyBatch {
    ghost asks = { λ job slots. (batch : List Write) × AreSlotsOf batch slots };

    ghost holds = { λ job t s writes bytes. (form : BlockForm) × ((batch : List Write) × IsBlockOf form batch t s writes bytes) };
}
