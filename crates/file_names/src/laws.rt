// Laws of names, over the definitions of specs/. Layers above cite these and never the bytes of a name.
ghost use Rattle.std.specs.Prelude.{◌≡◌, ◌≢◌, ℕ, List};
ghost use Rattle.hudi_base.specs.declared.file_group.GroupRef.{GroupRef};
ghost use Rattle.file_names.specs.FileId.{file_id};
ghost use Rattle.file_names.specs.FileName.{name_of, kind_of, group_of_file, IsGroup, IsNamed, IsRead};
ghost use Rattle.file_names.specs.GroupIds.{group_with_id, IsGroupWithId};
ghost use Rattle.file_names.specs.declared.file_name.FileName.{FileName};

/// Names and files determine each other. It does nothing: its clauses are the laws.
pub fn names_and_files_agree()
    // A name is read back, and as nothing else.
    ensures read_back { (table name : List ℕ) (f g : FileName) → IsNamed f → name ≡ name_of table f → IsRead table name g → g ≡ f }
    ensures one_reading { (table name : List ℕ) (f g : FileName) → IsRead table name f → IsRead table name g → f ≡ g }

    // Distinct files have distinct names: files of two kinds, files of two groups, and files of one kind and group.
    ensures distinct { (table : List ℕ) (f g : FileName) → IsNamed f → IsNamed g → name_of table f ≡ name_of table g → f ≡ g }
    ensures kinds_apart { (table : List ℕ) (f g : FileName) → IsNamed f → IsNamed g → kind_of f ≢ kind_of g → name_of table f ≢ name_of table g }
    ensures groups_apart { (table : List ℕ) (f g : FileName) → IsNamed f → IsNamed g → group_of_file f ≢ group_of_file g → name_of table f ≢ name_of table g }

    // A file id tells the groups of one partition apart. Those of two partitions differ if the UUIDs do, which no law
    // says; their files' names differ all the same, since the partition stands before the id.
    ensures ids_apart { (table : List ℕ) (g h : GroupRef) → IsGroup g → IsGroup h → g.partition ≡ h.partition → file_id table g ≡ file_id table h → g ≡ h }

    // What is found by a file id is the group of the partition that has it, and nothing where there is none.
    ensures ids_found { (table partition id : List ℕ)
        → IsGroupWithId table partition id (group_with_id table partition id) }
{}
