ghost use Rattle.model_members.specs.DataType.{Replication};
ghost use Rattle.theorem_runs.specs.Runs.{AfterEveryRun, OfEveryScript};
ghost use Rattle.theorem_sections.specs.Sections.{OfEverySection};
ghost use Rattle.theorem_sections.specs.Runs.{IsRunStep};
ghost use Rattle.theorem_client_operations.specs.Calls.{CallsStandOnce};
ghost use Rattle.theorem_client_operations.specs.Completing.{SectionsFinish};
ghost use Rattle.theorem_client_operations.specs.Seen.{AllGetsIncludeSeen};

/// Each call of a client stands once in a section, after all that its caller had seen.
/// - A client's commands come as often as it has them, each at its moment, and each has a line, in the client's order.
/// - When one comes, what the last one sent was heard, as far as the definition of a section asks, and it has ended.
/// - What the report tells of the earlier ones is what stands then: so whatever a line tells had come about before the
///   client's next command.
pub fn calls_stand_once<Kind, Operation, Shown>()
    ensures { (D : Replication Kind Operation Shown) → AfterEveryRun D (λ members keys before. OfEverySection D before (CallsStandOnce D before)) }
{}

/// Completeness of clients' operations: in a section whose members all have the last view, in which no store fails and at
/// whose end no running member is full, each operation that a client's command opened finishes, and its line tells how.
pub fn client_operations_finish<Kind, Operation, Shown>()
    ensures { (D : Replication Kind Operation Shown) → AfterEveryRun D (λ members keys before. SectionsFinish D before) }
{}

/// The quorum theorem of a run that may have clients, by the lines of its report: while membership stays unchanged, a
/// majority get whose answer is told includes every majority update of its key whose success whoever made the get had seen.
/// Had seen: the update's line, or one of the script's own that told its end, is of an earlier step; or it is of an earlier
/// command of the same client.
pub fn gets_include_seen<Kind, Operation, Shown>()
    ensures { (D : Replication Kind Operation Shown) → OfEveryScript IsRunStep (AllGetsIncludeSeen D) }
{}
