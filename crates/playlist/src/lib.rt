// The rules of writing a media playlist (playlist.rs, `MediaPlaylist::write_to`): which lines there are and the bytes of each (`specs/Lines.antt`), what the call
// answers and leaves in the output (`specs/Calls.antt`). `measure` finds out whether a text has room, `writer` writes it.
#![tactic(auto)]
