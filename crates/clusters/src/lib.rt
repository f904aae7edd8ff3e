//! The clusters of lists of goals: which goals are linked by mention, directly or through others. Each law is the contract of a function with an empty body; there is no
//! code.
#![tactic(auto)]

ghost use Rattle.clusters.specs.Laws.{ClassesCover, ClassesAreApart, ClassesAreConnected, ClassesSplit, ClassesAreRenamed, ClustersForgetNumbers, ClustersAreShaped, ClustersAreNoneWhereNoGoalIs};

/// The goals of the classes are the goals of the list.
pub fn classes_cover()
    ensures { ClassesCover }
{}

/// No goal is in two classes.
pub fn classes_are_apart()
    ensures { ClassesAreApart }
{}

/// A class has exactly the goals that are linked, directly or through others.
pub fn classes_are_connected()
    ensures { ClassesAreConnected }
{}

/// No mention crosses the border of a class.
pub fn classes_split()
    ensures { ClassesSplit }
{}

/// Classes go along with renamings of metavariables.
pub fn classes_are_renamed()
    ensures { ClassesAreRenamed }
{}

/// Clusters are the same under other numbers.
pub fn clusters_forget_numbers()
    ensures { ClustersForgetNumbers }
{}

/// Clusters are shaped lists that are not empty, numbered by their places.
pub fn clusters_are_shaped()
    ensures { ClustersAreShaped }
{}

/// A list has a cluster where it has a goal.
pub fn clusters_are_none_where_no_goal_is()
    ensures { ClustersAreNoneWhereNoGoalIs }
{}
