//! The laws.
ghost use Rattle.dj_instance_laws.specs.Laws.{LineInstancesAreSaid, JavaInstancesAreSaid, JavaFaultsAreSaid};

/// Each instance of a rule that stands in a configuration of an accepted line can be said of the bytes of the line, and
/// so each one that counts.
pub fn line_instances_are_said()
    ensures { LineInstancesAreSaid }
{}

/// Each instance of a rule that stands in the table of the classes of a Java file can be said of the bytes of the file,
/// and so each one that counts.
pub fn java_instances_are_said()
    ensures { JavaInstancesAreSaid }
{}

/// A fault that stands in the classes of a Java file can be said of the bytes of the file, as
/// `dj_report::refusal_text` needs it.
pub fn java_faults_are_said()
    ensures { JavaFaultsAreSaid }
{}
