// Looks can't be noticed: no call of the panel can tell whether looks were made among its calls, on any of the three
// chips, and what the panel's calls leave is the same. A theorem alone, over the definitions that the calls promise.
//
// Request P5 decides. specs/Looks.antt has the statements: the theorem, the bench tool's story and a load with looks;
// specs/Agrees.antt says that a look answers what the read of the same register answers. Not modelled: when in time a
// look is made.
#![tactic(auto)]
