//! What is proved of a transaction's commit.
ghost use Rattle.pm3_history.specs.Commits.{CommitsKeep, CommitsRun, PlainCommitsFollow};
ghost use Rattle.pm3_history.specs.LastImages.{WrittenStand, LeftStand, LastIsWritten};

/// With the commit of a transaction a lawful history stays lawful (`kept`), and the transaction's operations, with the answers
/// that it had, are a run from the whole graph before it to the one after it (`run`).
/// Where it held pages of no space alone, its images may follow (`plain`).
pub fn commit_law()
    ensures kept { CommitsKeep }
    ensures run { CommitsRun }
    ensures plain { PlainCommitsFollow }
{
    pm3_graph::frame_of_runs();
}

/// The last images after a commit are its own over those before it: of the pages (`written`) and of the spaces (`left`). So a
/// page has the image of the last commit that wrote it (`last`).
pub fn last_image_law()
    ensures written { WrittenStand }
    ensures left { LeftStand }
    ensures last { LastIsWritten }
{}
