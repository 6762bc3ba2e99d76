//! Laws over the definitions. Each is a function with an empty body, whose clauses are the law.
ghost use Rattle.std.specs.Prelude.{◌≡◌, [], ◌∷◌, false};
ghost use Rattle.oo7_schema.specs.CountLaws.{ChangesAreCounted, BasesAreCounted, AssembliesAreCounted};
ghost use Rattle.oo7_schema.specs.CountLaws.{DocumentsAreLong, ObjectsAreCounted, InsertMakesFew, InsertMakesFive};
ghost use Rattle.oo7_schema.specs.DesignLaws.{SwapsLeaveDesigns, DatesLeaveDesigns, DeletesLeaveDesigns};
ghost use Rattle.oo7_schema.specs.DesignLaws.{InsertsLeaveDesigns, JobsLeaveDesigns, JobsLeaveClosed};
ghost use Rattle.oo7_schema.specs.DesignLaws.{BuiltIsDesign, BuiltIsClosed, DesignsAreClosed, ReadingsAreWhole};
ghost use Rattle.oo7_schema.specs.Designs.{IsDesignIn};
ghost use Rattle.oo7_schema.specs.Entries.{without_entry, from_key, has_entry};
ghost use Rattle.oo7_schema.specs.EntryLaws.{EntriesCome, EntriesGo, EntriesComeAndGo, DatesTurn, three_entries};
ghost use Rattle.oo7_schema.specs.JobLaws.{AlikeHaveOneReading, IsAlikeToItsReading, JobsSeeReadings, JobIsOfReading};
ghost use Rattle.oo7_schema.specs.Nearness.{NearDesignsKeep, NearDesignsStay};
ghost use Rattle.oo7_schema.specs.RoomLaws.{JobsMakeWithin, TurnsMakeWithin, BuildsMakeWithin};
ghost use Rattle.oo7_schema.specs.RunLaws.{RunsByReading, RunsLeaveReadings, RunsOnDesigns, ReportsTellRuns};
ghost use Rattle.oo7_schema.specs.RunLaws.{JobsAreRead, LinesAreJobs, LinesAreShort};
ghost use Rattle.oo7_schema.specs.Sized.{object_named};
ghost use Rattle.oo7_schema.specs.TriedDesign.{tried_objects, tried_roots};

/// Readings: graphs that differ in their names alone have one, and a graph differs from its own in names alone.
pub fn readings()
    ensures one { AlikeHaveOneReading }
    ensures own { IsAlikeToItsReading }
{}

/// Jobs see readings alone: what a job answers, and the reading of what it leaves, is the same on a graph and on its reading, and
/// so from job to job.
pub fn jobs_by_reading()
    ensures same { JobsSeeReadings }
    ensures job { JobIsOfReading }
    ensures run { RunsByReading }
    ensures left { RunsLeaveReadings }
    ensures store { RunsOnDesigns }
    ensures reports { ReportsTellRuns }
{}

/// How many changes T2 and T3 make, how many assemblies a design has, and how many objects a composite part.
pub fn counts()
    ensures changes { ChangesAreCounted }
    ensures bases { BasesAreCounted }
    ensures assemblies { AssembliesAreCounted }
    ensures documents { DocumentsAreLong }
    ensures objects { ObjectsAreCounted }
    ensures few { InsertMakesFew }
    ensures five { InsertMakesFive }
{}

/// The small design that is written out is a design: the clauses of the definition don't exclude each other.
pub fn small_design()
    ensures { IsDesignIn (object_named tried_objects) tried_roots }
{}

/// Entries that come into a list and go from it, and dates that are turned.
pub fn entries()
    ensures come { EntriesCome }
    ensures go { EntriesGo }
    ensures both { EntriesComeAndGo }
    ensures dates { DatesTurn }
    ensures three { three_entries ≡ (3, 2) ∷ (5, 1) ∷ (5, 3) ∷ [] }
    ensures removed { without_entry 5 1 three_entries ≡ (3, 2) ∷ (5, 3) ∷ [] }
    ensures gone { has_entry 5 1 (without_entry 5 1 three_entries) ≡ false }
    ensures sought { from_key 4 (without_entry 5 1 three_entries) ≡ (5, 3) ∷ [] }
    ensures past { from_key 6 three_entries ≡ [] }
{}

/// What stays of a design where dates, x and y of atomic parts change, and one tree with them.
pub fn changed_parts()
    ensures kept { NearDesignsKeep }
    ensures design { NearDesignsStay }
{}

/// What a job leaves of a design is a design.
pub fn changes_stay()
    ensures swaps { SwapsLeaveDesigns }
    ensures dates { DatesLeaveDesigns }
    ensures deletes { DeletesLeaveDesigns }
    ensures inserts { InsertsLeaveDesigns }
    ensures jobs { JobsLeaveDesigns }
    ensures closed { JobsLeaveClosed }
{}

/// What a build makes is a design, for each size and seed.
pub fn builds()
    ensures design { BuiltIsDesign }
    ensures closed { BuiltIsClosed }
{}

/// What jobs and builds make is within the room of a command.
pub fn within_room()
    ensures jobs { JobsMakeWithin }
    ensures turns { TurnsMakeWithin }
    ensures builds { BuildsMakeWithin }
{}

/// A job is read from its line, and a line that is read as a job is that job's.
pub fn job_lines()
    ensures read { JobsAreRead }
    ensures written { LinesAreJobs }
    ensures short { LinesAreShort }
{}

/// The reading of a design has all that its roots reach.
pub fn designs_closed()
    ensures flat { DesignsAreClosed }
    ensures part { ReadingsAreWhole }
{}
