ghost use Rattle.sig_view.specs.laws.Tasks.{StaysReady, StaysSound};

use crate::task::ViewTask;
use crate::watching::WatchedView;

/// A task that is ready to be polled stays ready as its port sees more, and its leaves hold at their positions what
/// they held: whoever edits between two polls owes a task nothing.
pub fn tasks_stay_ready(task: &ViewTask)
    ensures { StaysReady task.now }
{}

/// The rows of a watched view stay sound as its port sees more between two polls.
pub fn watched_views_stay_sound(view: &WatchedView)
    ensures { StaysSound view.now }
{}
