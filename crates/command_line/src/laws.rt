//! Laws of the files that commands read. The functions do nothing: their clauses hold of all files.

ghost use Rattle.std.specs.Prelude.{◌≡◌, ℕ, List, Ok, map};
ghost use Rattle.stack_shelf.specs.Files.{Files};
ghost use Rattle.command_line.specs.{declared.command.TaskFiles.{TaskFiles}, declared.role.Role.{Role}, declared.role.Role.TheVariants.{TaskSource}};
ghost use Rattle.command_line.specs.{declared.role.Role.TheVariants.{TaskValues}, CommandFiles.{names_in, task_inputs}, Gathered.{AreRead, Texts, gathered}};
ghost use Rattle.command_line.specs.Gathered.{texts_of};

/// The texts of a role are those of the files of that role, in order. So where the files of tasks are fetched, each task has the
/// text of its source and that of its values.
pub fn texts_are_read()
    ensures each { (role : Role) (files : Files) (inputs : List (Role × List ℕ)) (texts : Texts)
        → gathered files inputs ≡ Ok texts → AreRead files role (names_in role inputs) (texts_of role texts) }
    ensures sources { (files : Files) (tasks : List TaskFiles) (texts : Texts)
        → gathered files (task_inputs tasks) ≡ Ok texts
        → AreRead files TaskSource (map (λ task. task.source) tasks) (texts_of TaskSource texts) }
    ensures values { (files : Files) (tasks : List TaskFiles) (texts : Texts)
        → gathered files (task_inputs tasks) ≡ Ok texts
        → AreRead files TaskValues (map (λ task. task.values) tasks) (texts_of TaskValues texts) }
{}
