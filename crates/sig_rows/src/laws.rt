ghost use Rattle.sig_rows.specs.laws.SoundRows.{GoOnSoundly, ShowTheEnd, ShowTheView, StaySound};

use crate::rows::{Row, Rows};

/// Rows that are sound for sources are sound for all that the sources become as their histories go on.
pub fn rows_stay_sound(rows: &Rows)
    ensures { StaySound rows.now }
{}

/// Sound rows that haven't ended are sound with one more that goes on from them.
pub fn rows_go_on(rows: &Rows, row: &Row)
    ensures { GoOnSoundly rows.now row.now }
{}

/// What sound rows have shown is what the view shows at the positions of the last of them.
pub fn rows_show_the_view(rows: &Rows)
    ensures { ShowTheView rows.now }
{}

/// Sound rows that have ended show the view from scratch of the last contents of its leaves' sources.
pub fn ended_rows_show_the_end(rows: &Rows)
    ensures { ShowTheEnd rows.now }
{}
