//! What the definitions say of small lines and classes.
ghost use Rattle.dj_calculus.specs.Examples.{ModifiedTwice, ChangedWhereAdded, FieldMissing, OneTableInEachOrder, VersionsByName, FieldOfNull, CastOfNull, ClassesBreak, MembersBreak, BodiesBreak, TextsOfExpressions};

/// Rule 1: two active deltas of one part that modify one method, or of which one adds the class that the other changes.
pub fn overlaps()
    ensures modified_twice { ModifiedTwice }
    ensures changed_where_added { ChangedWhereAdded }
{}

/// Two deltas that add different fields to one class may be applied in either order.
pub fn disjoint_deltas()
    ensures { OneTableInEachOrder }
{}

/// Rule 5: a field that went with its class is missing though the class came back.
pub fn missing_field()
    ensures { FieldMissing }
{}

/// Each version of a method becomes a method of its own, and `original` calls the version before.
pub fn kept_versions()
    ensures { VersionsByName }
{}

/// Rule 23: null has no members. A cast of null has a type.
pub fn null_values()
    ensures field_of_null { FieldOfNull }
    ensures cast_of_null { CastOfNull }
{}

/// Rules 9 to 16 and 18 to 21, each broken by a Java file of one line, at its place.
pub fn one_line_files()
    ensures classes { ClassesBreak }
    ensures members { MembersBreak }
    ensures bodies { BodiesBreak }
{}

/// Two expressions whose texts have each parenthesis and each comma.
pub fn expression_texts()
    ensures { TextsOfExpressions }
{}
