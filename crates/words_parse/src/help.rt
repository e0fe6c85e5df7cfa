//! What the help says.

pub(crate) const ABOUT: &str =
    "Writes one browser import map for the npm packages that lie in node_modules";

/// Examples and statuses, behind what `clap` says of commands and options.
pub(crate) const AFTER: &str = "Examples, in the folder of the site:
  salimgub link --base https://app.test/ ./app.mjs
      follow ./app.mjs and what it imports, packages of node_modules too, and write importmap.json
  salimgub link lit @scope/ui/button.js
      add what two packages export, with the base that the project already has
  salimgub refresh
      write the map anew after a file or a package has changed
  salimgub list
      print the modules in the order in which they are first asked for
  salimgub why /node_modules/lit/index.js
      say by which imports the page comes to this file
  salimgub vendor /out
      copy the files that the map needs, and no others, into a new folder out
  salimgub measure 200
      show that the program runs, and how fast, on 200 packages in memory

Options of link, before the entries, each at most once:
  --base <URL>          the URL of this folder on the web, as https://app.test/; needed the first time
  --page <PATH>         the page's path below this folder; at first /index.html
  --conditions <NAMES>  the conditions of packages, with commas between them; at first browser,import

Status:
  0  done
  1  refused: an import leads to no module, the page has no place for the map,
     unlink names what is no entry, or there is something where vendor is to copy to
  2  the words can't be used, or help was asked for
  3  a limit is passed
  4  reading failed
  5  writing failed
  6  differences were found
  7  a file isn't of its form: the project, the map, the page or a line of a session
  8  there is no memory left
  10 why: no import leads to the file";

pub(crate) const LINK: &str =
    "Add entries to the project, and write the map and the project's file";

pub(crate) const UNLINK: &str = "Take entries out, and write the map and the project's file";

pub(crate) const REFRESH: &str = "Write the map anew for the project as it is";

pub(crate) const INJECT: &str = "Write the page with the map in it";

pub(crate) const CHECK: &str =
    "Compare the map's file with what the modules need, and write nothing";

pub(crate) const STRICT: &str = "Compare each module with the grammar of statements, too";

pub(crate) const LIST: &str = "Print the modules, each with the number of its requests";

pub(crate) const WHY: &str = "Print the shortest chain of imports from the page to a file";

pub(crate) const VENDOR: &str = "Copy the files that the map needs, and no others, to a new folder";

pub(crate) const SESSION: &str =
    "Keep the map current: read edits from the standard input, and reply to each";

pub(crate) const MEASURE: &str =
    "Generate over a stated tree of N packages in memory, and print counts";

pub(crate) const BASE: &str =
    "The URL of this folder on the web, as https://app.test/; needed the first time";

pub(crate) const PAGE: &str = "The page's path below this folder [at first: /index.html]";

pub(crate) const CONDITIONS: &str =
    "The conditions of packages, with commas between them [at first: browser,import]";

pub(crate) const ENTRIES: &str =
    "What the page imports: ./app.mjs, or a package as lit or @scope/ui/button.js";

pub(crate) const UNLINKED: &str = "What the page no longer imports, written as it was linked";

pub(crate) const FILE: &str = "The file's path below this folder, as /lib/words.mjs";

pub(crate) const FOLDER: &str = "The new folder's path below this folder, as /out";

pub(crate) const NUMBER: &str = "How many packages, from 1 to 2000";
