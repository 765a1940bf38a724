// What holds of properties that were read. The function does nothing: its clause is a law.
ghost use Rattle.std.specs.Prelude.{◌≡◌, true};
ghost use Rattle.table_props.specs.declared.props.Props.{Props};
ghost use Rattle.table_props.specs.PropsTexts.{IsTold, told_of};
ghost use Rattle.row_values.specs.Layouts.{has_typed_places};

/// Properties that some text says may have a layout.
pub fn told_properties_have_typed_places()
    ensures { (props : Props) → IsTold (told_of props) → has_typed_places props ≡ true }
{}
