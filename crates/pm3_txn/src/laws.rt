//! What is proved of transactions as values.
ghost use Rattle.pm3_txn.specs.PassCommits.{PassesFollow, SpacePagesMayGo};
ghost use Rattle.pm3_txn.specs.TransactionLaws.{TransactionsBegin, PagesAreAdmitted, ObjectsAreThere, ReadsGoOn, ReadsAreKnown, WritesGoOn, RootReadsGoOn, RootWritesGoOn, TransactionsGoOn, TransactionsCommit};
ghost use Rattle.pm3_txn.specs.OwnerLaws.{NewNamesAreNew, OthersAreBare, SpacesAreLast, UnnamedHaveNone, HoldingsBegin, HoldingsAlone, HoldingsGoOn, HoldingsTakePages, HoldingsTakeSpaces, KnownAreHere, HoldingsRead, HoldingsWrite, HoldingsReadRoot, HoldingsWriteRoot};
ghost use Rattle.pm3_txn.specs.DrawnLaws.{HoldingsDraw, DrawnNamesAreUnused, FreePagesAreBare, DrawnPagesAreBare, HoldingsReuse, HoldingsFree, HoldingsRoom, HoldingsMake, HoldingsUndo};
ghost use Rattle.pm3_txn.specs.StepLaws.{TakesGoFurther, GivesGoFurther, DrawsAreAlike, SettlesSpread};
ghost use Rattle.pm3_txn.specs.WorkLaws.{WorksBegin, WorksAlone, WorksAdmit, WorksTakeSpace, WorksGrow, WorksFree, WorksMake, ObjectsAreHeld, WorksRead, WorksWrite, WorksReadRoot, WorksWriteRoot, WorksGoOn};

/// A transaction that holds persistent pages alone goes on by each of its calls as by one operation, and while others commit;
/// its commit is an entry that may follow.
pub fn transaction_law()
    ensures begins { TransactionsBegin }
    ensures admits { PagesAreAdmitted }
    ensures there { ObjectsAreThere }
    ensures reads { ReadsGoOn }
    ensures known { ReadsAreKnown }
    ensures writes { WritesGoOn }
    ensures root_reads { RootReadsGoOn }
    ensures root_writes { RootWritesGoOn }
    ensures goes_on { TransactionsGoOn }
    ensures commits { TransactionsCommit }
{
    pm3_graph::frame_of_runs();
}

/// A transaction that may hold its space too begins with nothing (`begins`), is one of pages alone where it doesn't (`alone`), goes on
/// with a persistent page (`admits`) or the space (`takes_space`) that it takes, or with a page drawn into the space (`grows`,
/// `frees`). An object made is one operation more (`makes`). An object of its book is there once its page is held (`there`), each
/// access is one operation more (`reads`, `writes`, `root_reads`, `root_writes`), and all stays as it is while others commit
/// (`goes_on`).
pub fn works_law()
    ensures begins { WorksBegin }
    ensures alone { WorksAlone }
    ensures admits { WorksAdmit }
    ensures takes_space { WorksTakeSpace }
    ensures grows { WorksGrow }
    ensures frees { WorksFree }
    ensures makes { WorksMake }
    ensures there { ObjectsAreHeld }
    ensures reads { WorksRead }
    ensures writes { WorksWrite }
    ensures root_reads { WorksReadRoot }
    ensures root_writes { WorksWriteRoot }
    ensures goes_on { WorksGoOn }
{
    pm3_graph::frame_of_runs();
}

/// Of what a view that has seen a lawful history knows: a name from the first next one on that no commit made is new (`names`), no
/// persistent object is on a page that it knows not to be persistent (`bare`), a space's value has its last images (`spaces`), and
/// commits that do not name a space's unit have no pass of it (`unnamed`).
pub fn owner_law()
    ensures names { NewNamesAreNew }
    ensures bare { OthersAreBare }
    ensures spaces { SpacesAreLast }
    ensures unnamed { UnnamedHaveNone }
{}

/// What a view knows of a transaction that may hold its space: nothing is held at its beginning (`begins`), without a space it
/// holds pages alone (`alone`), commits of others leave what it holds and has done (`goes_on`), and so do pages (`takes_pages`) and
/// its space (`takes_spaces`) that are taken. A known object is one of its book (`known`), and each access is one operation more
/// (`reads`, `writes`, `root_reads`, `root_writes`).
pub fn holding_law()
    ensures begins { HoldingsBegin }
    ensures alone { HoldingsAlone }
    ensures goes_on { HoldingsGoOn }
    ensures takes_pages { HoldingsTakePages }
    ensures takes_spaces { HoldingsTakeSpaces }
    ensures known { KnownAreHere }
    ensures reads { HoldingsRead }
    ensures writes { HoldingsWrite }
    ensures root_reads { HoldingsReadRoot }
    ensures root_writes { HoldingsWriteRoot }
{
    pm3_graph::frame_of_runs();
}

/// What a view draws leaves its transaction (`draws`), and no object of its space has a name that was drawn (`names`). No image is
/// held of a page that is free (`free`) or was drawn (`pages`). A drawn page may be a free one (`frees`), whatever the room for
/// those (`room`), and the space goes on with a free page as a blank one (`reuses`). An object made under such a name is one
/// operation more, and is known (`makes`). Undone, the space has the value that it was taken with, but that the pages
/// drawn since are free (`undone`).
pub fn drawn_law()
    ensures draws { HoldingsDraw }
    ensures names { DrawnNamesAreUnused }
    ensures free { FreePagesAreBare }
    ensures pages { DrawnPagesAreBare }
    ensures reuses { HoldingsReuse }
    ensures frees { HoldingsFree }
    ensures room { HoldingsRoom }
    ensures makes { HoldingsMake }
    ensures undone { HoldingsUndo }
{}

/// The commit of a transaction that holds its space, once its pass was carried out, is one of that transaction, and may follow the
/// state with its pass (`follows`). Of each page of the space the view knows that the space had it, or that it may be drawn
/// (`pages`).
pub fn pass_law()
    ensures follows { PassesFollow }
    ensures pages { SpacePagesMayGo }
{
    pm3_copy::carried_law();
    pm3_copy::quiet_law();
}

/// What the table's steps make of a view: it goes further with a unit that it takes (`takes`) and gives back (`gives`), and is alike
/// once it drew (`draws`), or settled a page in a space, which has that page then (`settles`).
pub fn step_law()
    ensures takes { TakesGoFurther }
    ensures gives { GivesGoFurther }
    ensures draws { DrawsAreAlike }
    ensures settles { SettlesSpread }
{}
