//! Worked examples of what command lines want, and of queries that the shell has split.

ghost use Rattle.std.specs.Prelude.{◌≡◌, [], ◌∷◌, true, false, codes};
ghost use Rattle.jp_answer.specs.declared.on_fault.OnFault.TheVariants.{Stop, KeepGoing};
ghost use Rattle.jp_number.specs.declared.numbers.Numbers.TheVariants.{Whole, Decimals};
ghost use Rattle.jp_output.specs.declared.layout.Ending.TheVariants.{LineFeed, Null};
ghost use Rattle.jp_run.specs.declared.cutting.Cutting.TheVariants as Cutting;
ghost use Rattle.jp_run.specs.declared.output.Output.TheVariants.{Nodes, Texts, Lines};
ghost use Rattle.jp_program.specs.CommandLine.{AsksToShow, IsRefused};
ghost use Rattle.jp_program.specs.Split.{looks_like_query, question, question_line};
ghost use Rattle.jp_program.specs.Wanted.{Wants, IsWrong};

/// Each option, in both of its forms, and a query that begins with `-`.
fn all_options()
    ensures { Wants (codes "jp" ∷ codes "--workers" ∷ codes "8" ∷ codes "--piece=2" ∷ codes "--batch"
        ∷ codes "+10" ∷ codes "--check" ∷ codes "--decimals" ∷ codes "--keep-going" ∷ codes "--explain"
        ∷ codes "--exit-status" ∷ codes "--output=texts" ∷ codes "--documents" ∷ codes "--with-filename"
        ∷ codes "--first=7" ∷ codes "--null" ∷ codes "--" ∷ codes "-q" ∷ []) (record {
          query = codes "-q";
          filter = None;
          files = [];
          names = true;
          cutting = Cutting.Documents;
          check = true;
          counts = false;
          output = Texts;
          ending = Null;
          fields = [];
          numbers = Decimals;
          on_fault = KeepGoing;
          explain = true;
          exit_status = true;
          workers = 8;
          piece = 2;
          batch = 10;
          before = 6;
        }) }
{}

/// The options that have a letter, together and apart.
fn letters()
    ensures { Wants (codes "jp" ∷ codes "-kde0" ∷ codes "-o" ∷ codes "texts" ∷ codes "$" ∷ []) (record {
      query = codes "$";
      filter = None;
      files = [];
      names = false;
      cutting = Cutting.Lines;
      check = false;
      counts = false;
      output = Texts;
      ending = Null;
      fields = [];
      numbers = Decimals;
      on_fault = KeepGoing;
      explain = false;
      exit_status = true;
      workers = 4;
      piece = 64;
      batch = 4096;
      before = 0;
    }) }
{}

/// A count, which is a form of its own.
fn counts()
    ensures { Wants (codes "jp" ∷ codes "-c" ∷ codes "$" ∷ codes "x" ∷ []) (record {
      query = codes "$";
      filter = None;
      files = codes "x" ∷ [];
      names = false;
      cutting = Cutting.Lines;
      check = false;
      counts = true;
      output = Nodes;
      ending = LineFeed;
      fields = [];
      numbers = Whole;
      on_fault = Stop;
      explain = false;
      exit_status = false;
      workers = 4;
      piece = 64;
      batch = 4096;
      before = 0;
    }) }
{}

/// A file alone: its name stands before no line, unless that is asked for.
fn one_file()
    ensures unnamed { Wants (codes "jp" ∷ codes "$" ∷ codes "x" ∷ []) (record {
      query = codes "$";
      filter = None;
      files = codes "x" ∷ [];
      names = false;
      cutting = Cutting.Lines;
      check = false;
      counts = false;
      output = Nodes;
      ending = LineFeed;
      fields = [];
      numbers = Whole;
      on_fault = Stop;
      explain = false;
      exit_status = false;
      workers = 4;
      piece = 64;
      batch = 4096;
      before = 0;
    }) }
    ensures named { Wants (codes "jp" ∷ codes "--with-filename" ∷ codes "$" ∷ codes "x" ∷ []) (record {
      query = codes "$";
      filter = None;
      files = codes "x" ∷ [];
      names = true;
      cutting = Cutting.Lines;
      check = false;
      counts = false;
      output = Nodes;
      ending = LineFeed;
      fields = [];
      numbers = Whole;
      on_fault = Stop;
      explain = false;
      exit_status = false;
      workers = 4;
      piece = 64;
      batch = 4096;
      before = 0;
    }) }
{}

/// Two files: the name of each stands before its lines.
fn two_files()
    ensures { Wants (codes "jp" ∷ codes "$" ∷ codes "x" ∷ codes "y" ∷ []) (record {
      query = codes "$";
      filter = None;
      files = codes "x" ∷ codes "y" ∷ [];
      names = true;
      cutting = Cutting.Lines;
      check = false;
      counts = false;
      output = Nodes;
      ending = LineFeed;
      fields = [];
      numbers = Whole;
      on_fault = Stop;
      explain = false;
      exit_status = false;
      workers = 4;
      piece = 64;
      batch = 4096;
      before = 0;
    }) }
{}

/// Files behind the query, in the order of the words: one that stands twice is named twice.
fn files()
    ensures { Wants (codes "jp" ∷ codes "$" ∷ codes "x" ∷ codes "-" ∷ codes "x" ∷ []) (record {
      query = codes "$";
      filter = None;
      files = codes "x" ∷ codes "-" ∷ codes "x" ∷ [];
      names = true;
      cutting = Cutting.Lines;
      check = false;
      counts = false;
      output = Nodes;
      ending = LineFeed;
      fields = [];
      numbers = Whole;
      on_fault = Stop;
      explain = false;
      exit_status = false;
      workers = 4;
      piece = 64;
      batch = 4096;
      before = 0;
    }) }
{}

/// Options between the files, and behind `--` a file whose name looks like one.
fn options_between_files()
    ensures { Wants (codes "jp" ∷ codes "-e" ∷ codes "$" ∷ codes "x" ∷ codes "-o" ∷ codes "lines" ∷ codes "y"
        ∷ codes "-k" ∷ codes "--" ∷ codes "-d" ∷ []) (record {
          query = codes "$";
          filter = None;
          files = codes "x" ∷ codes "y" ∷ codes "-d" ∷ [];
          names = true;
          cutting = Cutting.Lines;
          check = false;
          counts = false;
          output = Lines;
          ending = LineFeed;
          fields = [];
          numbers = Whole;
          on_fault = KeepGoing;
          explain = false;
          exit_status = true;
          workers = 4;
          piece = 64;
          batch = 4096;
          before = 0;
        }) }
{}

/// The help and the version, whatever stands beside them.
fn what_is_shown()
    ensures help { AsksToShow (codes "jp" ∷ codes "--help" ∷ []) }
    ensures short_help { AsksToShow (codes "jp" ∷ codes "-h" ∷ codes "$.a" ∷ []) }
    ensures version { AsksToShow (codes "jp" ∷ codes "--version" ∷ []) }
    ensures short_version { AsksToShow (codes "jp" ∷ codes "--workers=1" ∷ codes "-V" ∷ []) }
{}

/// No query, an unknown option, an option without its number, and with what is none.
fn wrong_words()
    ensures no_query { IsRefused (codes "jp" ∷ codes "--check" ∷ []) }
    ensures unknown { IsRefused (codes "jp" ∷ codes "--nope" ∷ codes "$" ∷ []) }
    ensures no_number { IsRefused (codes "jp" ∷ codes "$" ∷ codes "--piece" ∷ []) }
    ensures other_number { IsRefused (codes "jp" ∷ codes "--batch=x" ∷ codes "$" ∷ []) }
    ensures twice { IsRefused (codes "jp" ∷ codes "--check" ∷ codes "--check" ∷ codes "$" ∷ []) }
{}

/// A number past its range, a form that there is not, U+0000 behind what is no value, and a file's name with
/// a line feed.
fn out_of_range()
    ensures workers { IsWrong (codes "jp" ∷ codes "--workers" ∷ codes "65" ∷ codes "$" ∷ []) }
    ensures first { IsWrong (codes "jp" ∷ codes "--first" ∷ codes "0" ∷ codes "$" ∷ []) }
    ensures first_above { IsWrong (codes "jp" ∷ codes "--first" ∷ codes "4294967296" ∷ codes "$" ∷ []) }
    ensures form { IsWrong (codes "jp" ∷ codes "--output" ∷ codes "csv" ∷ codes "$" ∷ []) }
    ensures letters { IsWrong (codes "jp" ∷ codes "--output=Nodes" ∷ codes "$" ∷ []) }
    ensures null_behind_nodes { IsWrong (codes "jp" ∷ codes "-0" ∷ codes "$" ∷ []) }
    ensures null_behind_lines { IsWrong (codes "jp" ∷ codes "--null" ∷ codes "-o" ∷ codes "lines" ∷ codes "$"
        ∷ []) }
    ensures name { IsWrong (codes "jp" ∷ codes "$" ∷ codes "x\n" ∷ []) }
{}

/// Names that look like parts of a query, and names that do not.
fn parts_of_queries()
    ensures operator { looks_like_query (codes "==") ≡ true }
    ensures end { looks_like_query (codes "1]") ≡ true }
    ensures middle { looks_like_query (codes "1].name") ≡ true }
    ensures query_within { looks_like_query (codes "@.c") ≡ true }
    ensures numbered { looks_like_query (codes "a[1].json") ≡ false }
    ensures variable { looks_like_query (codes "$HOME.json") ≡ false }
    ensures comparison { looks_like_query (codes "x==y") ≡ false }
{}

/// A query that the shell has split is asked for its quotes; one with a file is not, nor is a file before the
/// query.
fn split_queries()
    ensures asked { question (codes "$.a[?@.b") (codes "==" ∷ codes "1]" ∷ []) ≡ question_line }
    ensures unasked { question (codes "$.a[?@.b") (codes "a.json" ∷ []) ≡ [] }
    ensures other_order { question (codes "a.json") (codes "$.a" ∷ []) ≡ [] }
{}
