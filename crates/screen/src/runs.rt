//! Whole runs: the answers to a list of events, and what a kept history stands for.

ghost use Rattle.std.specs.List.{list_all};
ghost use Rattle.std.specs.Prelude.{◌≡◌, true, IfOk, MatchResult, MatchOption};
ghost use Rattle.scene.specs.Alone.{config_refusal};
ghost use Rattle.scene.specs.Answers.{answers};
ghost use Rattle.scene.specs.Pictures.{is_told, ShowPictures, HaveMaps};
ghost use Rattle.screen.specs.State.{kept_is_enough, kept_is_kept};

use crate::Screen;
use scene::{
    Answer, Config, Event, ScreenError, accepted_happens_again, accepted_is_enough, maps_are_there,
    pictures_are_shown,
};
use std::alloc::Global;

/// Returns the answers to events, each as if its viewer were alone. Refuses a configuration as `Screen::new` does, and else for want of
/// memory as `OutOfMemory`.
///
/// Each viewer that is there could read all that it was sent, by RFC 6143 and what it said: no rectangle was beyond the screen, and none
/// in an encoding that it didn't list, but for Raw. One that is open, and whose format has a colour map, has the server's, but where it
/// is owed the map. Where the viewers are told of all that is drawn, each shows what is drawn: at each clean place the place's colour,
/// and at the source of each place that awaits a copy that place's.
pub fn run(alloc: Global, config: Config, events: &[Event]) -> Result<Vec<Answer>, ScreenError>
    ensures maps { IfOk result (λ given. HaveMaps config events.now given.items) }
    ensures pictures { IfOk result (λ given. list_all is_told events.now ≡ true → ShowPictures config events.now given.items) }
    ensures answers { MatchOption (config_refusal config)
        (MatchResult result (λ given. given.items ≡ answers config events.now) (λ e. e ≡ ScreenError.OutOfMemory)) (λ e. result ≡
        Err e) }
{
    maps_are_there();
    pictures_are_shown();
    let mut screen = Screen::new(alloc, config)?;
    let mut given = Vec::new(alloc);
    for event in events {
        let answer = screen.apply(event)?;
        given.push(answer)?;
    }
    Ok(given)
}

/// Proves that a screen stands for the events that it keeps: those that are left out changed nothing.
pub fn kept_is_enough()
    ensures { kept_is_enough }
{
    accepted_is_enough();
    accepted_happens_again();
}

/// Proves that a screen that is given the events that another one kept keeps them all.
pub fn kept_is_kept()
    ensures { kept_is_kept }
{
    accepted_happens_again();
}
