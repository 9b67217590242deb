// What was asked, in its own words, held over the code: the mission's three demands, the rules that they lean on (01) and the requests T-01, T-02 and T-04 to T-07 (02). No product code
// stands here. specs/ is the text to believe: it uses none of the library's definitions but those of a place (Point), a frame's numbers (Frame), a call's arguments (Call, Figure)
// and the fields of the answers, a refusal's name among them.
//   Figures    which pixels a line, a triangle, an outline, a circle and a connected line have, and the spans of their rows
//   Bytes      where a pixel stands, at each of the seven depths and in both orders, and what never changes
//   Files      the header of an image file, as it is written and as it is read
//   Numbers    the table: when each number is given, and in which order each operation asks
//   Counts     how many pixels there are of a kind
//   Calls      when a call is accepted, which colour it gives a pixel, and the last accepted call whose figure contains it
//   Answers    what each operation answers and leaves; Before, the same before rows had a distance
//   Results    what a function of the library answers, by its number and its value
//   Arguments  the arguments of `beamacorn`'s functions by their place, and what it is that a contract promises
//   Runs       calls as they are made, by the library's functions and those of `beamacorn` in any mix
// What is said of `beamacorn`'s functions holds of the exported ones, whose contracts are theirs: beamacorn_c/proofs/Same.antt.
// proofs/ has the theorems, each of the contracts of the compiled functions as their sources have them:
//   Questions  what each question answers: demands 1 and 2
//   Drawing    what each call answers and leaves: demands 1 and 2, and T-02
//   OnePicture demand 3, and what else is known of the bytes after a run
//   Images     T-01 and T-06: the file that is written, that it reads back, and what is ignored of a file
//   Outlines   T-04; Traces, T-05; Gapless, T-07
// The other files of proofs/ show that the library's definitions are those of specs/.
#![tactic(auto)]
