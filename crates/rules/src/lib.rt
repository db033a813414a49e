// The rules of document 01, each as a law about the calls, in its order and its words. There is no code here.
#![tactic(auto)]
