//! What an audit finds of a run, as functions that do nothing.
ghost use Rattle.tau_inspect_laws.specs.Laws.{ToldAsExecuted, RecordsFit, TakenFits, OrderFits, VerdictsOfRun, ReachImages, OwnReportFits, NoEpochs, WholeIsLong, RunReportFits, EndIsLong, EndedReportFits};

/// The report of a run that began on no rows passes the checks of fates, replies and rows, beside whatever log.
pub fn told_as_executed()
    ensures { ToldAsExecuted }
{}

/// Beside the report of a run that began on streams without a byte, each record of a log of its images is the first one of
/// a call that writes, in its stream, with what the call did and the vector that was acknowledged.
pub fn records_fit()
    ensures { RecordsFit }
{}

/// Of such a log each acknowledged call that writes is taken, and what is acknowledged or taken depends on no updating call
/// that is not.
pub fn taken_fits()
    ensures { TakenFits }
{}

/// If such a log is as long as the streams were at the end, or as what the calls wait for, and each call of the order has
/// its record or its acknowledgement, the order is the reported history by the places in the log.
pub fn order_fits()
    ensures { OrderFits }
{}

/// Beside such a log every verdict on the run's report is yes or cut; but for one that tells of an epoch record, or of the
/// order if the log is shorter than the streams were at the end and than what the calls wait for.
pub fn verdicts_of_run()
    ensures { VerdictsOfRun }
{}

/// A log of images that reach what is persisted, of a run that began on nothing, is one of the run, has no epoch, and is as
/// long as what the run's calls wait for.
pub fn reach_images()
    ensures { ReachImages }
{}

/// The report of a run that began on nothing, beside a log of images that reach what it persisted, is found whole or cut:
/// every verdict on it is yes or cut.
pub fn own_report_fits()
    ensures { OwnReportFits }
{}

/// A log of a run that a core has made from streams without a byte has no epoch record.
pub fn no_epochs()
    ensures { NoEpochs }
{}

/// Images that each have the whole content of their stream: the log is as long as the streams were at the end.
pub fn whole_is_long()
    ensures { WholeIsLong }
{}

/// The report of a run of the core from streams without a byte, however its events were chosen, beside a log of its images
/// that is long enough: every verdict on it is yes or cut.
pub fn run_report_fits()
    ensures { RunReportFits }
{}

/// Images of a run that went to its end, not older than its end: the log is as long as what the run's calls wait for.
pub fn end_is_long()
    ensures { EndIsLong }
{}

/// The report of a run of the core from streams without a byte that went to its end, whether disks failed in it or not,
/// beside a log of images not older than its end: every verdict on it is yes or cut.
pub fn ended_report_fits()
    ensures { EndedReportFits }
{}
