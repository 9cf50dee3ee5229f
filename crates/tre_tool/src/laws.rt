//! Laws of what words ask for, each as a function whose contract it is.

ghost use Rattle.std.specs.Prelude.{◌≡◌, ◌≢◌, ℕ, List};
ghost use Rattle.tre_tell.specs.Request.{Request};
ghost use Rattle.tre_feed.specs.Input.{InputTold};
ghost use Rattle.tre_tell.specs.Outputs.{OutputTold};
ghost use Rattle.tre_tool.specs.Checks.{ChecksAreTold};
ghost use Rattle.tre_tool.specs.MadeRun.{AsksForMadeRun, EndsMadeRun};
ghost use Rattle.tre_tool.specs.Request.{AsksFor};
ghost use Rattle.tre_tool.specs.Run.{EndsAs};
ghost use Rattle.tre_tool.specs.declared.status.Status.{Status};
ghost use Rattle.tre_words.specs.Job.{GivesJob, made_job};
ghost use Rattle.tre_words.specs.declared.job.Job.{Job};

/// Words and a file of checks ask for one thing at most: one job, one list of patterns with their
/// labels and names, and one list of definitions.
pub fn one_request()
    ensures request { (words : List (List ℕ)) (checks : InputTold) (one other : Request) →
        AsksFor (GivesJob words) (ChecksAreTold checks) one →
        AsksFor (GivesJob words) (ChecksAreTold checks) other → one ≡ other }
    ensures definitions { (words : List (List ℕ)) (checks : InputTold) (one other : Request)
        (asks : AsksFor (GivesJob words) (ChecksAreTold checks) one)
        (again : AsksFor (GivesJob words) (ChecksAreTold checks) other) →
        (asks.lets ≡ again.lets) × (asks.signals ≡ again.signals) }
{}

/// Every end but `Usage` and `Memory` is that of words that give a job: so no word is passed over.
pub fn given_job()
    ensures { (words : List (List ℕ)) (checks input : InputTold) (output : OutputTold)
        (status : Status) → EndsAs (GivesJob words) checks input output status →
        status ≢ Status.Usage → status ≢ Status.Memory → (job : Job) × GivesJob words job }
{}

/// Words that ask for a made run give its job. A run over them writes the summary of its segments,
/// or a first part of it: of the ends that a run may have there are no others.
pub fn made_run()
    ensures job { (words : List (List ℕ)) (count : ℕ) → AsksForMadeRun words count →
        GivesJob words (made_job count) }
    ensures ends { (words : List (List ℕ)) (count : ℕ) (checks input : InputTold)
        (output : OutputTold) (status : Status) → AsksForMadeRun words count →
        EndsAs (GivesJob words) checks input output status → EndsMadeRun count output status }
{}
