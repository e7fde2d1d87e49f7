//! Command lines worked out by hand, as theorems: each line is computed by the definition of what words ask for.

ghost use Rattle.std.specs.Prelude.{◌≡◌, None, [], ◌∷◌, codes};
ghost use Rattle.edit_forms.specs.declared.form.Form.TheVariants.{Csv, Json};
ghost use Rattle.alto_words.specs.Lines.{AsksFor, IsOutside};
ghost use Rattle.alto_words.specs.Words.{task_of};
ghost use Rattle.alto_words.specs.declared.command_name.CommandName.TheVariants as command;
ghost use Rattle.alto_words.specs.declared.task.Task.TheVariants.{Drill, Help, Import, Init, Pipe, Serve, Show, Trim};
ghost use Rattle.alto_words.specs.declared.task.Task.TheVariants.{Version};
ghost use Rattle.alto_words.specs.declared.task.Topic.TheVariants as topic;

/// Each command, as it is mostly written.
pub fn each_command_asks_for_its_task()
    ensures init { AsksFor (codes "init x --epoch e1 --window 8") (Init (codes "x") (codes "e1") 8) }
    ensures pipe { AsksFor (codes "pipe x --turns 3") (Pipe (codes "x") 3) }
    ensures usual_turns { AsksFor (codes "pipe x") (Pipe (codes "x") 30) }
    ensures serve { AsksFor (codes "serve x --public 127.0.0.1:80 --operator [::1]:81 --workers 4 --turns 3")
        (Serve (codes "x") (codes "127.0.0.1:80") (codes "[::1]:81") 4 3) }
    ensures usually_served { AsksFor (codes "serve x --public a --operator b --workers 64")
        (Serve (codes "x") (codes "a") (codes "b") 64 30) }
    ensures import { AsksFor (codes "import x --id i9 --form csv") (Import (codes "x") (codes "i9") Csv) }
    ensures json { AsksFor (codes "import x --id i9 --form json") (Import (codes "x") (codes "i9") Json) }
    ensures show { AsksFor (codes "show x metro") (Show (codes "x") (codes "metro")) }
    ensures drill { AsksFor (codes "drill --number 7") (Drill 7 40) }
    ensures longer_drill { AsksFor (codes "drill --batches=1000 --number 4294967295") (Drill 4294967295 1000) }
    ensures trim { AsksFor (codes "trim x --keep 4") (Trim (codes "x") 4) }
    ensures help { AsksFor (codes "--help") (Help topic.Program) }
    ensures help_of_a_command { AsksFor (codes "import --help") (Help (topic.Command command.Import)) }
    ensures version { AsksFor (codes "--version") Version }
{}

/// Options stand before, between and behind the positionals, as two words or as one.
pub fn options_stand_anywhere()
    ensures before { AsksFor (codes "init --window=8 --epoch e1 x") (Init (codes "x") (codes "e1") 8) }
    ensures around { AsksFor (codes "import --form=csv x --id i9") (Import (codes "x") (codes "i9") Csv) }
    ensures equals_in_a_value { AsksFor (codes "import x --id=a=b --form=csv") (Import (codes "x") (codes "a=b") Csv) }
    ensures before_the_command { IsOutside (codes "--turns 3 pipe x") }
{}

/// A hyphen alone is a text like any other. Behind `--` all words are positionals.
pub fn hyphens_begin_options_before_two_hyphens()
    ensures value { AsksFor (codes "import x --id - --form csv") (Import (codes "x") (codes "-") Csv) }
    ensures positional { AsksFor (codes "show - metro") (Show (codes "-") (codes "metro")) }
    ensures ended { AsksFor (codes "show -- -x --id") (Show (codes "-x") (codes "--id")) }
    ensures ended_later { AsksFor (codes "show x -- --") (Show (codes "x") (codes "--")) }
    ensures joined { AsksFor (codes "import x --id=-q --form csv") (Import (codes "x") (codes "-q") Csv) }
    ensures hyphen_in_a_value { IsOutside (codes "import x --id -q --form csv") }
    ensures option_as_a_value { IsOutside (codes "import x --id --form csv") }
    ensures end_as_a_value { IsOutside (codes "import x --form csv --id -- i9") }
    ensures hyphen_in_a_positional { IsOutside (codes "show -x metro") }
    ensures option_behind_the_end { IsOutside (codes "pipe x -- --turns 3") }
    ensures end_before_the_command { IsOutside (codes "-- show x metro") }
{}

/// Each option at most once, and each argument of the command's own that isn't optional.
pub fn arguments_are_those_of_the_command()
    ensures twice { IsOutside (codes "import x --id i9 --form csv --id i8") }
    ensures the_same_twice { IsOutside (codes "pipe x --turns 3 --turns=3") }
    ensures no_option { IsOutside (codes "import x --id i9") }
    ensures no_value { IsOutside (codes "import x --form csv --id") }
    ensures no_side { IsOutside (codes "serve x --public a --workers 4") }
    ensures no_keep { IsOutside (codes "trim x") }
    ensures no_positional { IsOutside (codes "show x") }
    ensures one_positional_more { IsOutside (codes "show x metro y") }
    ensures another_option { IsOutside (codes "show x metro --turns 3") }
    ensures prefix_of_an_option { IsOutside (codes "pipe x --turn 3") }
    ensures short_option { IsOutside (codes "pipe x -t 3") }
{}

/// A number is 1 to 10 decimal digits, in the range of its option.
pub fn numbers_are_digits_in_a_range()
    ensures zeros { AsksFor (codes "pipe x --turns 0000001000") (Pipe (codes "x") 1000) }
    ensures least { AsksFor (codes "pipe x --turns 0") (Pipe (codes "x") 0) }
    ensures greatest { AsksFor (codes "init x --epoch e1 --window 32") (Init (codes "x") (codes "e1") 32) }
    ensures none_kept { AsksFor (codes "trim x --keep=0") (Trim (codes "x") 0) }
    ensures most_kept { AsksFor (codes "trim --keep 4096 x") (Trim (codes "x") 4096) }
    ensures no_digit { IsOutside (codes "pipe x --turns=") }
    ensures eleven_digits { IsOutside (codes "pipe x --turns 00000000003") }
    ensures sign { IsOutside (codes "pipe x --turns +3") }
    ensures letter { IsOutside (codes "pipe x --turns 3s") }
    ensures turns { IsOutside (codes "pipe x --turns 1001") }
    ensures narrow { IsOutside (codes "init x --epoch e1 --window 1") }
    ensures wide { IsOutside (codes "init x --epoch e1 --window 33") }
    ensures past_32_bits { IsOutside (codes "pipe x --turns 4294967296") }
    ensures no_workers { IsOutside (codes "serve x --public a --operator b --workers 0") }
    ensures many_workers { IsOutside (codes "serve x --public a --operator b --workers 65") }
    ensures no_batches { IsOutside (codes "drill --number 7 --batches 0") }
    ensures many_batches { IsOutside (codes "drill --number 7 --batches 1001") }
    ensures number_past_32_bits { IsOutside (codes "drill --number 4294967296") }
    ensures no_window { IsOutside (codes "init x --epoch e1 --window 0") }
    ensures more_kept { IsOutside (codes "trim x --keep 4097") }
{}

/// Epochs, ids and forms are of their alphabets. Stores and resources are any text, an empty one too.
pub fn values_are_of_their_kinds()
    ensures epoch { IsOutside (codes "init x --epoch e-1 --window 8") }
    ensures no_epoch { IsOutside (codes "init x --epoch= --window 8") }
    ensures no_id { IsOutside (codes "import x --id= --form csv") }
    ensures form { IsOutside (codes "import x --id i9 --form xml") }
    ensures capitals { IsOutside (codes "import x --id i9 --form CSV") }
    ensures empty_store { AsksFor (codes "pipe ") (Pipe [] 30) }
{}

/// Words that name no command ask for nothing; help and the version stand alone or behind a command.
pub fn other_words_are_outside()
    ensures no_words { task_of [] ≡ None }
    ensures no_command { IsOutside (codes "follow x") }
    ensures prefix_of_a_command { IsOutside (codes "sho x metro") }
    ensures help_as_a_word { IsOutside (codes "help") }
    ensures short_help { IsOutside (codes "-h") }
    ensures help_among_arguments { IsOutside (codes "show x metro --help") }
    ensures help_of_no_command { IsOutside (codes "follow --help") }
    ensures help_before_a_command { IsOutside (codes "--help show") }
    ensures version_of_a_command { IsOutside (codes "show --version") }
{}
