//! The words of `listen`.

ghost use Rattle.std.specs.Prelude.{◌≡◌, option_map};
ghost use Rattle.relation_words.specs.Listening.{told_place};
ghost use Rattle.pg_replay.specs.Listening.{listening_of, recorded_at, told_listening};

use pg_messages::PgStr;
use relation_words::{ListenPlace, listen_place, read_bound};

/// What good words of `listen` tell.
#[derive(Clone, Copy)]
pub struct Listening<'w> {
    /// Where clients come to.
    pub place: ListenPlace<'w>,
    /// The path of the relation file.
    pub file: &'w str,
    /// The path of the folder for the recordings.
    pub folder: &'w str,
    /// How many clients are served at most, where there is a bound.
    pub count: Option<u64>,
}

/// What the words tell, where they are `listen tcp PORT FILE FOLDER [COUNT]` or `listen unix PATH FILE
/// FOLDER [COUNT]`. PORT is 1 to 65535, PATH and FOLDER aren't empty, FILE is any word, COUNT is 0 to
/// 10000. Numbers are in decimal, without a sign or a leading zero. None for any other words.
pub fn read_listening<'w>(words: &'w [PgStr]) -> Option<Listening<'w>>
    ensures { option_map told_listening result ≡ listening_of words.now }
{
    match words {
        [_, _, _, file, folder] => {
            let place = listen_place(&words[..4]);
            recorded_at(place, file.as_str(), folder.as_str(), Some(None))
        }
        [_, _, _, file, folder, count] => {
            let place = listen_place(&words[..4]);
            let count = read_bound(count.as_str());
            recorded_at(place, file.as_str(), folder.as_str(), count)
        }
        _ => None,
    }
}

/// What the words tell, where the place, the folder and the count are good.
fn recorded_at<'w>(
    place: Option<ListenPlace<'w>>,
    file: &'w str,
    folder: &'w str,
    count: Option<Option<u64>>,
) -> Option<Listening<'w>>
    ensures { option_map told_listening result
        ≡ recorded_at (option_map told_place place.entry) file.now folder.now count }
{
    let place = place?;
    let count = count?;
    if folder.is_empty() {
        return None;
    }
    Some(Listening {
        place,
        file,
        folder,
        count,
    })
}
