//! Laws of legal journals, of any state and of texts, each the clause of a call that does nothing.

ghost use Rattle.cv_event.specs.Laws.{ProjectIsOfEdits, ViewIsLast, JobTakesThePresent, ImageIsOfTheTaken};
ghost use Rattle.cv_event.specs.Laws.{EndIsFirst, EndsStay, EndedJobsAreVoid, CancelledJobsAreVoid};
ghost use Rattle.cv_event.specs.Laws.{SupersededJobsAreVoid, SlotsAreAsLooked, TouchedByEdits};
ghost use Rattle.cv_event.specs.Laws.{ComposerIsOfCompose, CacheOfOneCanvas, CachedImagesArePresent};
ghost use Rattle.cv_event.specs.Laws.{TaskIsOfTheFirst, TaskIsLeastSlot, ComposeIsDue};
ghost use Rattle.cv_event.specs.TextLaws.{LineTellsEntry, LineTellsRefused, TextTellsJournal};
ghost use Rattle.cv_event.specs.TextLaws.{TextAndEditsTellJournal, LegalActsFit, JobsHaveFewSlots};
ghost use Rattle.cv_event.specs.HitLaws.{HitsAreOfEdits, FateIsOfEdits};
ghost use Rattle.cv_event.specs.ViewLaws.{CachedViewsArePans, CachedLayersAreDistinct, HitsAreAlike};
ghost use Rattle.cv_event.specs.ShownLaws.{PreviewListsReady, PublishedIsLastFinished};
ghost use Rattle.cv_event.specs.JobLaws.{AcceptedIsCounted, CanvasesStay, SlotsAreOfTheTaken, FreshIsOfEdits};
ghost use Rattle.cv_event.specs.JobLaws.{DeliveryIsByLooker, FinishIsByComposer, TaskIsDue};
ghost use Rattle.cv_event.specs.JobLaws.{LooksAreOfLiveJobs, ComposesAreOfLiveJobs, JobsAreStarts};
ghost use Rattle.cv_event.specs.JobLaws.{StartedJobsAreThere};
ghost use Rattle.cv_event.specs.JobLaws.{NoMemoryNeverStands};

/// The present project is that of the opening behind all accepted edits.
pub fn project_is_of_edits()
    ensures { ProjectIsOfEdits }
{}

/// A canvas's present view is its last one.
pub fn view_is_last()
    ensures { ViewIsLast }
{}

/// A job takes the project behind the edits accepted before its start, and its canvas's last view before it.
pub fn job_takes_the_present()
    ensures { JobTakesThePresent }
{}

/// An image of a job is the picture of the project and the view that it took.
pub fn image_is_of_the_taken()
    ensures { ImageIsOfTheTaken }
{}

/// A job's end is the first finish, fail or cancel of it, or start on its canvas, behind its start.
pub fn end_is_first()
    ensures { EndIsFirst }
{}

/// An end never changes.
pub fn ends_stay()
    ensures { EndsStay }
{}

/// From its end on, a job publishes and stores nothing.
pub fn ended_jobs_are_void()
    ensures { EndedJobsAreVoid }
{}

/// From its cancel on, a job publishes and stores nothing.
pub fn cancelled_jobs_are_void()
    ensures { CancelledJobsAreVoid }
{}

/// From a later start on its canvas on, a job publishes and stores nothing.
pub fn superseded_jobs_are_void()
    ensures { SupersededJobsAreVoid }
{}

/// A slot is open where no look at it stands, and ready where a hit or a delivery stands that was stored or
/// kept.
pub fn slots_are_as_looked()
    ensures { SlotsAreAsLooked }
{}

/// A slot of a job without end is touched where an accepted edit behind the start touches one of its
/// dependencies.
pub fn touched_by_edits()
    ensures { TouchedByEdits }
{}

/// Somebody composes a job's picture where its compose stands.
pub fn composer_is_of_compose()
    ensures { ComposerIsOfCompose }
{}

/// A canvas's cache is changed by each act as the definition says, whatever the other canvases hold.
pub fn cache_of_one_canvas()
    ensures { CacheOfOneCanvas }
{}

/// What stands in a cache was painted for a ready slot of a job on its canvas, at the job's view, of the
/// present parts of its layer.
pub fn cached_images_are_present()
    ensures { CachedImagesArePresent }
{}

/// The task is that of the first job that has one.
pub fn task_is_of_the_first()
    ensures { TaskIsOfTheFirst }
{}

/// A job without end has its least open slot as its task.
pub fn task_is_least_slot()
    ensures { TaskIsLeastSlot }
{}

/// A job without end whose slots are all ready has its composition as its task, once.
pub fn compose_is_due()
    ensures { ComposeIsDue }
{}

/// The line of an entry in a journal's text tells the entry, but for its edit.
pub fn line_tells_entry()
    ensures { LineTellsEntry }
{}

/// The line of a refused command tells the command.
pub fn line_tells_refused()
    ensures { LineTellsRefused }
{}

/// A journal's text determines the entries but for their edits, the refused commands and the number of
/// images.
pub fn text_tells_journal()
    ensures { TextTellsJournal }
{}

/// With the list of the edits, accepted or refused, it determines the journal.
pub fn text_and_edits_tell_journal()
    ensures { TextAndEditsTellJournal }
{}

/// The numbers of a legal journal's acts are of their types, where the opening has at most 32 layers, as many
/// canvases as can be numbered, and sizes of their types.
pub fn legal_acts_fit()
    ensures { LegalActsFit }
{}

/// A job of a legal journal has at most as many slots as a preview can tell, where the opening has at most 32
/// layers, as many canvases as can be numbered, and sizes of their types.
pub fn jobs_have_few_slots()
    ensures { JobsHaveFewSlots }
{}

/// A preview lists the job's ready slots, where the job has at most 32 slots.
pub fn preview_lists_ready()
    ensures { PreviewListsReady }
{}

/// A slot waits for the delivery of a caller exactly where this caller looked at it and missed it, and no
/// delivery of it stands.
pub fn delivery_is_by_looker()
    ensures { DeliveryIsByLooker }
{}

/// A job's picture is to be finished by exactly the caller whose compose stands.
pub fn finish_is_by_composer()
    ensures { FinishIsByComposer }
{}

/// As many edits count as accepted as stand accepted in the journal.
pub fn accepted_is_counted()
    ensures { AcceptedIsCounted }
{}

/// Starts number their jobs 1, 2, .., and there are as many jobs as starts.
pub fn jobs_are_starts()
    ensures { JobsAreStarts }
{}

/// A job of a number is there exactly where a start has the number.
pub fn started_jobs_are_there()
    ensures { StartedJobsAreThere }
{}

/// Want of memory is never the verdict of an edit that stands.
pub fn no_memory_never_stands()
    ensures { NoMemoryNeverStands }
{}

/// The canvases keep the sizes and capacities that they were opened with.
pub fn canvases_stay()
    ensures { CanvasesStay }
{}

/// A job is on its start's canvas, and its slots are those of the project and the view that it took.
pub fn slots_are_of_the_taken()
    ensures { SlotsAreOfTheTaken }
{}

/// A slot of a job without end is fresh where the job's view is its canvas's last one, and no accepted edit
/// behind the start touches one of its dependencies.
pub fn fresh_is_of_edits()
    ensures { FreshIsOfEdits }
{}

/// A task is due exactly where some job without end has a slot at which wasn't looked, or all slots ready and
/// nobody who composes them.
pub fn task_is_due()
    ensures { TaskIsDue }
{}

/// Only open slots of jobs without end are looked at.
pub fn looks_are_of_live_jobs()
    ensures { LooksAreOfLiveJobs }
{}

/// Only jobs without end are composed, whose slots are all ready, and each once.
pub fn composes_are_of_live_jobs()
    ensures { ComposesAreOfLiveJobs }
{}

/// A canvas's published picture is of what the last job took that was finished on it.
pub fn published_is_last_finished()
    ensures { PublishedIsLastFinished }
{}

/// A canvas's present view is a pan of the view of each image in its cache.
pub fn cached_views_are_pans()
    ensures { CachedViewsArePans }
{}

/// A cache has at most one image of each layer, and no more than its canvas's capacity.
pub fn cached_layers_are_distinct()
    ensures { CachedLayersAreDistinct }
{}

/// An image that a look hits is at the job's view, and was painted of the same parts as the job would paint.
pub fn hits_are_alike()
    ensures { HitsAreAlike }
{}

/// A look at a slot of a job without end hits where the job's view is its canvas's last one, no accepted edit
/// behind the start touches one of the slot's dependencies, and the cache has an image of its layer at the
/// job's view.
pub fn hits_are_of_edits()
    ensures { HitsAreOfEdits }
{}

/// What is delivered is dropped where an act behind the start ended the job, else stored where the slot is
/// fresh and the canvas has a capacity, and else kept.
pub fn fate_is_of_edits()
    ensures { FateIsOfEdits }
{}
